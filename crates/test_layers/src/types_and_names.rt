//! What the clauses don't say: that the definitions they cite are those of the format.

use crate::header_rows::{NamedValues, var_of};
use nc_base::NcType::{self, Byte, Int, Short, Uint64};
use nc_base::{Sequence, Version, check_name, fill_of, stem};
use std::test::Fail;

/// The types in the order of `NcType::ALL`, each with the size, the code and the default fill value that `netcdf.h` gives it.
static TYPES: &[(NcType, u64, u32, i128)] = &[
    (NcType::Byte, 1, 1, -127),
    (NcType::Char, 1, 2, 0),
    (NcType::Short, 2, 3, -32767),
    (NcType::Int, 4, 4, -2147483647),
    (NcType::Ubyte, 1, 7, 255),
    (NcType::Ushort, 2, 8, 65535),
    (NcType::Uint, 4, 9, 4294967295),
    (NcType::Int64, 8, 10, -9223372036854775806),
    (NcType::Uint64, 8, 11, 18446744073709551614),
];

/// Returns true if the type has this size, code and fill value, and the versions have it that are to.
fn is_type(ty: NcType, (want, size, code, fill): (NcType, u64, u32, i128)) -> bool {
    let is_old = code <= 4;
    ty == want
        && ty.size() == size
        && ty.code() == code
        && NcType::of_code(code) == Some(ty)
        && ty.default_fill() == fill
        && Version::Cdf1.has_type(ty) == is_old
        && Version::Cdf2.has_type(ty) == is_old
        && Version::Cdf5.has_type(ty)
}

#[test]
fn types_are_those_of_the_format(rt: HostRuntime) {
    for (ty, want) in NcType::ALL.iter().zip(TYPES) {
        assert!(rt; is_type(*ty, *want), "{ty:?}");
    }
    for code in [0, 5, 6, 12, u32::MAX] {
        assert!(rt; NcType::of_code(code).is_none(), "the code {code}");
    }
}

#[test]
fn versions_have_bytes_and_limits(rt: HostRuntime) {
    static LIMITS: &[(u8, Version, u64, u64, u64)] = &[
        (1, Version::Cdf1, 1 << 31, 1 << 31, 0xffff_ffff),
        (2, Version::Cdf2, 1 << 31, 1 << 63, 0xffff_ffff),
        (5, Version::Cdf5, 1 << 63, 1 << 63, u64::MAX),
    ];
    for (byte, version, counts, offsets, mark) in LIMITS {
        assert!(rt; Version::of_byte(*byte) == Some(*version));
        let limits = (version.count_limit(), version.offset_limit());
        assert!(rt; limits == (*counts, *offsets), "{version:?}");
        assert!(rt; version.streaming_mark() == *mark, "{version:?}");
    }
    for byte in [0, 3, 4, 6, 255] {
        assert!(rt; Version::of_byte(byte).is_none(), "the byte {byte}");
    }
}

#[test]
fn names_and_stems_keep_their_rules(rt: HostRuntime) {
    static NAMES: &[(&[u8], bool)] = &[
        (b"x", true),
        (b"_a", true),
        (b"2b", true),
        (b"a b", true),
        (b"na\xc3\xafve", true),
        (b"\xc3\xa9", true),
        (b"a-b+c@d.e", true),
        (b"", false),
        (b"a/b", false),
        (b" a", false),
        (b"a ", false),
        (b"a\x7f", false),
        (b"a\tb", false),
        (b"-a", false),
        (b".a", false),
        // half of a character
        (b"\xc3", false),
    ];
    static PATHS: &[(&str, &str)] = &[
        ("dir/a.b.nc", "a.b"),
        (".nc", ".nc"),
        ("a", "a"),
        ("d.x/f", "f"),
        ("d/", ""),
        ("d/.x.nc", ".x"),
        ("", ""),
    ];
    for (name, is_valid) in NAMES {
        assert!(rt; check_name(*name) == *is_valid, "{name:?}");
    }
    for (path, name) in PATHS {
        assert!(rt; stem(*path) == *name, "{path:?}");
    }
}

const FILL: &str = "_FillValue";

/// Fill values of one short and of two, and of an int.
const SEVEN: NamedValues<'static> = (FILL, Short, "\0\x07");

const EIGHT: NamedValues<'static> = (FILL, Short, "\0\x08");

const MINUS_TWO: NamedValues<'static> = (FILL, Short, "\u{ff}\u{fe}");

const TWO_SEVENS: NamedValues<'static> = (FILL, Short, "\0\x07\0\x07");

const INT: NamedValues<'static> = (FILL, Int, "\0\0\0\x07");

/// A fill value of 64 bits.
const LARGE: NamedValues<'static> = (FILL, Uint64, "\u{80}\0\0\0\0\0\0\x01");

/// A type, attributes of a variable of the type, and the variable's fill value.
static FILLS: &[(NcType, &[NamedValues<'static>], i128)] = &[
    (Short, &[("units", NcType::Char, "K")], -32767),
    (Byte, &[(FILL, Byte, "\u{81}")], -127),
    (Short, &[("units", Short, "\0\x07"), MINUS_TWO], -2),
    (Uint64, &[LARGE], 9223372036854775809),
    // of another type, and of two values
    (Short, &[INT], -32767),
    (Short, &[TWO_SEVENS], -32767),
    // two of the name
    (Short, &[SEVEN, EIGHT], 7),
    (Short, &[INT, EIGHT], -32767),
];

#[test]
fn the_first_fill_value_of_the_right_type_counts(rt: HostRuntime) -> Result<(), Fail> {
    for (ty, atts, want) in FILLS {
        let var = var_of(rt.alloc(), ("v", &[], *ty, 0), *atts)?;
        assert!(rt; fill_of(&var) == *want, "{want}");
    }
    Ok(())
}

#[test]
fn sequences_are_made_from_vectors_and_give_them_back(rt: HostRuntime) -> Result<(), Fail> {
    const ITEMS: &[u64] = &[3, 1, 4, 1, 5];
    let mut sequence = Sequence::new(rt.alloc());
    assert!(rt; sequence.is_empty());
    sequence.push(3u64)?;
    sequence.extend_from_slice(&ITEMS[1..])?;
    assert!(rt; !sequence.is_empty() && sequence.len() == 5);
    let sequence = Sequence::from_vec(sequence.into_vec());
    assert!(rt; sequence.as_slice() == ITEMS);
    Ok(())
}
