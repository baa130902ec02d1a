//! Whole scripts, by the digests of their texts.
use gfx_generator::make_script;
use sha2::{Digest, Sha256};
use std::alloc::Global;
use std::test::Fail;

/// Numbers of scripts, and the SHA-256 of their texts as a reference implementation makes them.
const DIGESTS: [(u32, &str); 4] = [
    (
        1,
        "21a9c5167defd23e39f45ca8b25449d1277fa68181c3933274df377449f512d2",
    ),
    (
        2,
        "3589a12080e3d6a292bfc90d589e8d2fae78ad02c5cbc91fc9f3626dbbf01f5b",
    ),
    (
        3,
        "962e7420a6a354c060f230eef7974d990a1dea93ee0eaca2ece73391177de967",
    ),
    (
        4_294_967_295,
        "f4d62815d35b44470ba5c64774194c9e8ff66b5307b0950cdba689e14e426846",
    ),
];

#[test]
fn scripts_are_those_of_a_reference_implementation(rt: HostRuntime) -> Result<(), Fail> {
    for (number, want) in DIGESTS {
        let found = digest(rt.alloc(), number)?;
        assert_eq!(rt; found.as_str(), want);
    }
    Ok(())
}

/// The digest of a script's text, in hexadecimal digits.
fn digest(alloc: Global, number: u32) -> Result<String, Fail> {
    let text = make_script(alloc, number)?;
    Ok(hex::encode(alloc, Sha256::digest(text.as_slice()))?)
}
