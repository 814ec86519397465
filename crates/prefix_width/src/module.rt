/// The lookup modules, in the order in which ties between them are decided.
#[derive(Clone, Copy, Debug, PartialEq, Eq)]
pub enum Kind {
    /// The plain module, which looks at every route.
    Scan,
    /// Sorted ranges, looked up by bisection.
    Range,
    /// A path-compressed trie.
    Radix,
    /// A direct table and sorted fragments, for IPv4 alone (DXR, 2012).
    Dxr,
}

/// Which module the operator has set.
#[derive(Clone, Copy, Debug, PartialEq, Eq)]
pub enum Setting {
    /// The framework picks one by the modules' preferences.
    Auto,
    /// This one.
    Fixed(Kind),
}
