ghost use Rattle.addr_text.specs.Laws.{ReadsIpv4, ReadsIpv6, ReadsPrefix, ReadsBackIpv4, ReadsBackIpv6, ReadsBackPrefix};

/// Law: a text is read as an IPv4 address exactly where the grammar gives it that address.
pub fn law_ipv4_grammar()
    ensures { ReadsIpv4 }
{}

/// Law: a text is read as an IPv6 address exactly where the grammar gives it that address.
pub fn law_ipv6_grammar()
    ensures { ReadsIpv6 }
{}

/// Law: a text is read as a prefix exactly where the grammar gives it that prefix.
pub fn law_prefix_grammar()
    ensures { ReadsPrefix }
{}

/// Law: what is written of an IPv4 address reads as that address.
pub fn law_ipv4_read_back()
    ensures { ReadsBackIpv4 }
{}

/// Law: what is written of an IPv6 address reads as that address.
pub fn law_ipv6_read_back()
    ensures { ReadsBackIpv6 }
{}

/// Law: what is written of a prefix reads as that prefix.
pub fn law_prefix_read_back()
    ensures { ReadsBackPrefix }
{}
