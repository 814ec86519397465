ghost use Rattle.plan_cut.specs.Laws.{LastIsListed, ModulesAreChosen, NumbersArePlaces, VersionsAreListed};

/// Law: in the list of all versions the last one that the first commands made stands at its number.
pub fn law_versions_listed()
    ensures { VersionsAreListed }
{}

/// Law: the last version of all, the end's included, is the last of the list.
pub fn law_last_listed()
    ensures { LastIsListed }
{}

/// Law: the versions are numbered from 0 in their order.
pub fn law_numbers()
    ensures { NumbersArePlaces }
{}

/// Law: the module of each version but the first is chosen for its table, that of the version
/// before being the current one.
pub fn law_modules()
    ensures { ModulesAreChosen }
{}
