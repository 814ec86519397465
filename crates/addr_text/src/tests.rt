//! Texts of both families that are taken, refused and written.
use crate::{
    read_addr, read_number, read_prefix, read_v4, read_v6, write_addr, write_number, write_prefix,
};
use prefix_width::{Addr, Prefix};
use std::test::Fail;

// Texts of IPv6 addresses with their numbers: of RFC 4291 section 2.2, of RFC 5952 sections 1, 2
// and 4, and some at the edge of the grammar.
const V6_TEXTS: [(&str, u128); 41] = [
    (
        "ABCD:EF01:2345:6789:ABCD:EF01:2345:6789",
        0xabcd_ef01_2345_6789_abcd_ef01_2345_6789,
    ),
    (
        "2001:DB8:0:0:8:800:200C:417A",
        0x2001_0db8_0000_0000_0008_0800_200c_417a,
    ),
    (
        "2001:DB8::8:800:200C:417A",
        0x2001_0db8_0000_0000_0008_0800_200c_417a,
    ),
    (
        "FF01:0:0:0:0:0:0:101",
        0xff01_0000_0000_0000_0000_0000_0000_0101,
    ),
    ("FF01::101", 0xff01_0000_0000_0000_0000_0000_0000_0101),
    ("0:0:0:0:0:0:0:1", 1),
    ("::1", 1),
    ("0:0:0:0:0:0:0:0", 0),
    ("::", 0),
    ("0:0:0:0:0:0:13.1.68.3", 0x0d01_4403),
    ("::13.1.68.3", 0x0d01_4403),
    ("0:0:0:0:0:FFFF:129.144.52.38", 0xffff_8190_3426),
    ("::FFFF:129.144.52.38", 0xffff_8190_3426),
    (
        "2001:db8:0:0:1:0:0:1",
        0x2001_0db8_0000_0000_0001_0000_0000_0001,
    ),
    (
        "2001:0db8:0:0:1:0:0:1",
        0x2001_0db8_0000_0000_0001_0000_0000_0001,
    ),
    (
        "2001:db8::1:0:0:1",
        0x2001_0db8_0000_0000_0001_0000_0000_0001,
    ),
    (
        "2001:db8::0:1:0:0:1",
        0x2001_0db8_0000_0000_0001_0000_0000_0001,
    ),
    (
        "2001:0db8::1:0:0:1",
        0x2001_0db8_0000_0000_0001_0000_0000_0001,
    ),
    (
        "2001:db8:0:0:1::1",
        0x2001_0db8_0000_0000_0001_0000_0000_0001,
    ),
    (
        "2001:db8:0000:0:1::1",
        0x2001_0db8_0000_0000_0001_0000_0000_0001,
    ),
    (
        "2001:DB8:0:0:1::1",
        0x2001_0db8_0000_0000_0001_0000_0000_0001,
    ),
    (
        "2001:db8:aaaa:bbbb:cccc:dddd:eeee:0001",
        0x2001_0db8_aaaa_bbbb_cccc_dddd_eeee_0001,
    ),
    (
        "2001:db8:aaaa:bbbb:cccc:dddd:eeee:01",
        0x2001_0db8_aaaa_bbbb_cccc_dddd_eeee_0001,
    ),
    (
        "2001:db8:aaaa:bbbb:cccc:dddd::1",
        0x2001_0db8_aaaa_bbbb_cccc_dddd_0000_0001,
    ),
    (
        "2001:db8:aaaa:bbbb:cccc:dddd:0:1",
        0x2001_0db8_aaaa_bbbb_cccc_dddd_0000_0001,
    ),
    (
        "2001:db8:0:0:0::1",
        0x2001_0db8_0000_0000_0000_0000_0000_0001,
    ),
    (
        "2001:db8::aaaa:0:0:1",
        0x2001_0db8_0000_0000_aaaa_0000_0000_0001,
    ),
    (
        "2001:db8:0:0:aaaa::1",
        0x2001_0db8_0000_0000_aaaa_0000_0000_0001,
    ),
    (
        "2001:db8:aaaa:bbbb:cccc:dddd:eeee:AaAa",
        0x2001_0db8_aaaa_bbbb_cccc_dddd_eeee_aaaa,
    ),
    ("2001:0db8::0001", 0x2001_0db8_0000_0000_0000_0000_0000_0001),
    (
        "2001:db8:0:1:1:1:1:1",
        0x2001_0db8_0000_0001_0001_0001_0001_0001,
    ),
    (
        "2001:db8::1:1:1:1:1",
        0x2001_0db8_0000_0001_0001_0001_0001_0001,
    ),
    (
        "2001:0:0:1:0:0:0:1",
        0x2001_0000_0000_0001_0000_0000_0000_0001,
    ),
    (
        "2001:DB8:0:0:0:0:0:1",
        0x2001_0db8_0000_0000_0000_0000_0000_0001,
    ),
    ("2001:0db8::00FF", 0x2001_0db8_0000_0000_0000_0000_0000_00ff),
    ("::ffff:192.0.2.1", 0xffff_c000_0201),
    ("1:2:3:4:5:6:7::", 0x0001_0002_0003_0004_0005_0006_0007_0000),
    ("::2:3:4:5:6:7:8", 0x0000_0002_0003_0004_0005_0006_0007_0008),
    (
        "1:2:3:4:5:6:1.2.3.4",
        0x0001_0002_0003_0004_0005_0006_0102_0304,
    ),
    (
        "64:ff9b::192.0.2.33",
        0x0064_ff9b_0000_0000_0000_0000_c000_0221,
    ),
    ("ffff:ffff:ffff:ffff:ffff:ffff:ffff:ffff", u128::MAX),
];

// Texts of no IPv6 address.
const NO_V6: [&str; 37] = [
    "",
    ":",
    ":::",
    "1",
    "12345::",
    "2001:db8::12345",
    "00001::",
    "1::2::3",
    "::1::",
    "1:2:3:4:5:6:7::8",
    "1:2:3:4::5:6:7:8",
    "::1:2:3:4:5:6:7:8",
    "1:2:3:4:5:6:7:8::",
    "1:2:3:4:5:6:7",
    "1:2:3:4:5:6:7:8:9",
    "1:2:3:4:5:6:7:",
    "1:2:3:4:5:6:7:8:",
    ":1:2:3:4:5:6:7",
    "::1:",
    "1.2.3.4::",
    "1:2:1.2.3.4:3:4:5",
    "::1.2.3.4:5",
    "1:2:3:4:5:6:7:1.2.3.4",
    "1:2:3:4:5:1.2.3.4",
    "::01.2.3.4",
    "::1.2.3.256",
    "::1.2.3",
    "1.2.3.4",
    "fe80::1%em0",
    "[::1]",
    "::g",
    "::1/128",
    " ::1",
    "::1 ",
    "2001:db8::-1",
    "2001:db8::+1",
    "::ffff:0x1",
];

// Texts of IPv4 addresses with their numbers.
const V4_TEXTS: [(&str, u128); 11] = [
    ("0.0.0.0", 0),
    ("255.255.255.255", 0xffff_ffff),
    ("1.2.3.4", 0x0102_0304),
    ("10.0.0.1", 0x0a00_0001),
    ("127.0.0.1", 0x7f00_0001),
    ("192.0.2.1", 0xc000_0201),
    ("198.51.100.7", 0xc633_6407),
    ("203.0.113.255", 0xcb00_71ff),
    ("13.1.68.3", 0x0d01_4403),
    ("129.144.52.38", 0x8190_3426),
    ("99.100.249.250", 0x6364_f9fa),
];

// Texts of no IPv4 address.
const NO_V4: [&str; 23] = [
    "",
    "1",
    "1.2.3",
    "1.2.3.4.5",
    "1.2.3.",
    ".1.2.3.4",
    "1..2.3",
    "01.2.3.4",
    "1.2.3.04",
    "1.2.3.00",
    "256.0.0.0",
    "1.2.3.256",
    "1.2.3.1000",
    "1.2.3.-4",
    "+1.2.3.4",
    " 1.2.3.4",
    "1.2.3.4 ",
    "1.2.3.4/32",
    "1.2.3.a",
    "0x1.2.3.4",
    "1,2,3,4",
    "::1",
    "localhost",
];

// Texts of IPv4 prefixes, with the address and the length.
const V4_PREFIXES: [(&str, u128, u8); 10] = [
    ("10.0.0.0/8", 0x0a00_0000, 8),
    ("10.1.2.3/8", 0x0a00_0000, 8),
    ("10.1.2.3", 0x0a01_0203, 32),
    ("10.1.2.3/32", 0x0a01_0203, 32),
    ("192.0.2.255/31", 0xc000_02fe, 31),
    ("255.255.255.255/1", 0x8000_0000, 1),
    ("10.1.2.3/0", 0, 0),
    ("0.0.0.0/0", 0, 0),
    ("default", 0, 0),
    ("0.0.0.0", 0, 32),
];

// Texts of no IPv4 prefix.
const NO_V4_PREFIX: [&str; 23] = [
    "",
    "10.0.0.0/",
    "10.0.0.0/33",
    "10.0.0.0/033",
    "10.0.0.0/08",
    "10.0.0.0/00",
    "10.0.0.0/+8",
    "10.0.0.0/-1",
    "10.0.0.0/ 8",
    "10.0.0.0/8 ",
    "10.0.0.0/8/8",
    "10.0.0.0//8",
    "10.0.0.0/264",
    "10.0.0.0/4294967304",
    "10.0.0.0/255.0.0.0",
    "10.0.0/8",
    "10/8",
    "/8",
    "10.0.0.256/8",
    "::/0",
    "Default",
    "default/0",
    "default ",
];

// Texts of IPv6 prefixes (RFC 4291 section 2.3), with the address and the length.
const V6_PREFIXES: [(&str, u128, u8); 10] = [
    (
        "2001:0DB8:0000:CD30:0000:0000:0000:0000/60",
        0x2001_0db8_0000_cd30_0000_0000_0000_0000,
        60,
    ),
    (
        "2001:0DB8::CD30:0:0:0:0/60",
        0x2001_0db8_0000_cd30_0000_0000_0000_0000,
        60,
    ),
    (
        "2001:0DB8:0:CD30::/60",
        0x2001_0db8_0000_cd30_0000_0000_0000_0000,
        60,
    ),
    (
        "2001:0DB8:0:CD30:123:4567:89AB:CDEF/60",
        0x2001_0db8_0000_cd30_0000_0000_0000_0000,
        60,
    ),
    ("::1", 1, 128),
    ("::1/128", 1, 128),
    ("::1/127", 0, 127),
    ("::/0", 0, 0),
    ("default", 0, 0),
    ("ffff::1/0", 0, 0),
];

// Texts of no IPv6 prefix.
const NO_V6_PREFIX: [&str; 8] = [
    "::/129",
    "::/0128",
    "::/",
    "::/384",
    "2001:0DB8:0:CD3/60",
    "fe80::1%em0/64",
    "10.0.0.0/8",
    "10.0.0.1",
];

// The one text that is written of an IPv6 address (RFC 5952 section 4).
const V6_WRITTEN: [(u128, &str); 13] = [
    (0, "::"),
    (1, "::1"),
    (u128::MAX, "ffff:ffff:ffff:ffff:ffff:ffff:ffff:ffff"),
    (0x2001_0db8_0000_0000_0000_0000_0000_0001, "2001:db8::1"),
    (0x2001_0db8_0000_0000_0000_0000_0000_00ff, "2001:db8::ff"),
    (0xffff_c000_0201, "::ffff:c000:201"),
    (
        0x2001_0db8_0000_0001_0001_0001_0001_0001,
        "2001:db8:0:1:1:1:1:1",
    ),
    (
        0x2001_0db8_0000_0000_0001_0000_0000_0001,
        "2001:db8::1:0:0:1",
    ),
    (0x2001_0000_0000_0001_0000_0000_0000_0001, "2001:0:0:1::1"),
    (0x2001_0db8_0000_0000_0000_0000_0002_0001, "2001:db8::2:1"),
    (
        0x2001_0db8_aaaa_bbbb_cccc_dddd_eeee_aaaa,
        "2001:db8:aaaa:bbbb:cccc:dddd:eeee:aaaa",
    ),
    (0x0001_0002_0003_0004_0005_0006_0000_0000, "1:2:3:4:5:6::"),
    (0x0d01_4403, "::d01:4403"),
];

// The one text that is written of an IPv4 address.
const V4_WRITTEN: [(u128, &str); 3] = [
    (0, "0.0.0.0"),
    (0xffff_ffff, "255.255.255.255"),
    (0xc000_0201, "192.0.2.1"),
];

fn number<const W: u32>(addr: Option<Addr<W>>) -> Option<u128> {
    addr.map(|addr| addr.value())
}

fn parts<const W: u32>(prefix: Option<Prefix<W>>) -> Option<(u128, u8)> {
    prefix.map(|prefix| (prefix.addr().value(), prefix.len()))
}

#[test]
fn ipv6_texts_are_read(rt: HostRuntime) {
    for (text, want) in V6_TEXTS {
        assert_eq!(rt; number(read_v6(text.as_bytes())), Some(want), "{text}");
        assert_eq!(rt;
            number(read_addr::<128>(text.as_bytes())),
            Some(want),
            "{text}"
        );
    }
    for text in NO_V6 {
        assert_eq!(rt; number(read_v6(text.as_bytes())), None, "{text}");
    }
}

#[test]
fn ipv4_texts_are_read(rt: HostRuntime) {
    for (text, want) in V4_TEXTS {
        assert_eq!(rt; number(read_v4(text.as_bytes())), Some(want), "{text}");
        assert_eq!(rt;
            number(read_addr::<32>(text.as_bytes())),
            Some(want),
            "{text}"
        );
    }
    for text in NO_V4 {
        assert_eq!(rt; number(read_v4(text.as_bytes())), None, "{text}");
    }
}

#[test]
fn prefix_texts_are_read(rt: HostRuntime) {
    for (text, addr, len) in V4_PREFIXES {
        assert_eq!(rt;
            parts(read_prefix::<32>(text.as_bytes())),
            Some((addr, len)),
            "{text}"
        );
    }
    for text in NO_V4_PREFIX {
        assert_eq!(rt; parts(read_prefix::<32>(text.as_bytes())), None, "{text}");
    }
    for (text, addr, len) in V6_PREFIXES {
        assert_eq!(rt;
            parts(read_prefix::<128>(text.as_bytes())),
            Some((addr, len)),
            "{text}"
        );
    }
    for text in NO_V6_PREFIX {
        assert_eq!(rt; parts(read_prefix::<128>(text.as_bytes())), None, "{text}");
    }
}

#[test]
fn numbers_are_read(rt: HostRuntime) {
    for (text, want) in [
        ("0", 0),
        ("7", 7),
        ("32", 32),
        ("128", 128),
        ("4294967295", 4294967295),
    ] {
        assert_eq!(rt; read_number(text.as_bytes()), Some(want), "{text}");
    }
    for text in [
        "",
        "00",
        "01",
        "+1",
        "-1",
        " 1",
        "1 ",
        "0x10",
        "1_000",
        "4294967296",
        "18446744073709551616",
    ] {
        assert_eq!(rt; read_number(text.as_bytes()), None, "{text}");
    }
}

#[test]
fn ipv6_addresses_are_written(rt: HostRuntime) -> Result<(), Fail> {
    for (value, want) in V6_WRITTEN {
        let mut out = Vec::from_slice(rt.alloc(), b"to ")?;
        let Some(addr) = Addr::<128>::new(value) else {
            assert!(rt; false, "{value}");
            continue;
        };
        write_addr(rt.alloc(), &addr, &mut out)?;
        assert_eq!(rt; &out[3..], want.as_bytes(), "{want}");
        assert_eq!(rt; &out[..3], b"to ".as_slice());
        assert_eq!(rt; read_v6(want.as_bytes()), Some(addr), "{want}");
    }
    Ok(())
}

#[test]
fn ipv4_addresses_are_written(rt: HostRuntime) -> Result<(), Fail> {
    for (value, want) in V4_WRITTEN {
        let mut out = Vec::new(rt.alloc());
        let Some(addr) = Addr::<32>::new(value) else {
            assert!(rt; false, "{value}");
            continue;
        };
        write_addr(rt.alloc(), &addr, &mut out)?;
        assert_eq!(rt; out.as_slice(), want.as_bytes(), "{want}");
        assert_eq!(rt; read_v4(want.as_bytes()), Some(addr), "{want}");
    }
    Ok(())
}

#[test]
fn prefixes_are_written(rt: HostRuntime) -> Result<(), Fail> {
    for (text, want) in [
        ("default", "0.0.0.0/0"),
        ("10.1.2.3/8", "10.0.0.0/8"),
        ("255.255.255.255", "255.255.255.255/32"),
    ] {
        let mut out = Vec::new(rt.alloc());
        if let Some(prefix) = read_prefix::<32>(text.as_bytes()) {
            write_prefix(rt.alloc(), &prefix, &mut out)?;
        }
        assert_eq!(rt; out.as_slice(), want.as_bytes(), "{text}");
    }
    for (text, want) in [
        ("default", "::/0"),
        (
            "2001:DB8:0:CD30:123:4567:89AB:CDEF/60",
            "2001:db8:0:cd30::/60",
        ),
        ("::FFFF:192.0.2.1", "::ffff:c000:201/128"),
    ] {
        let mut out = Vec::new(rt.alloc());
        if let Some(prefix) = read_prefix::<128>(text.as_bytes()) {
            write_prefix(rt.alloc(), &prefix, &mut out)?;
        }
        assert_eq!(rt; out.as_slice(), want.as_bytes(), "{text}");
    }
    Ok(())
}

#[test]
fn numbers_are_written(rt: HostRuntime) -> Result<(), Fail> {
    for (number, want) in [
        (0, "ok 0"),
        (9, "ok 9"),
        (10, "ok 10"),
        (1_048_576, "ok 1048576"),
        (4_294_967_295, "ok 4294967295"),
    ] {
        let mut out = Vec::new(rt.alloc());
        out.extend_from_slice(b"ok ")?;
        write_number(number, &mut out)?;
        assert_eq!(rt; out.as_slice(), want.as_bytes());
    }
    Ok(())
}
