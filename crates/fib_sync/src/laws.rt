ghost use Rattle.fib_sync.specs.Laws.{CompiledSlotsAreLawful, LawfulImagesAnswer};

/// Law: a lawful image answers every address and flow as the scan of its version's whole table does.
pub fn law_lawful_images_answer<const W: u32>()
    ensures { LawfulImagesAnswer W }
{}

/// Law: slots that are compiled of the indexes of a group's nexthops are those of a lawful image.
pub fn law_compiled_slots_are_lawful<const W: u32>()
    ensures { CompiledSlotsAreLawful W }
{}
