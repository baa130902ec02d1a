//! Runs of ClearCodec: values of an independent program, both ways.
use gfx_base::{Bytes, Fault, NoMemory, Refusal, Rgb, Rgbs};
use gfx_clear_runs::{read_rlex, read_runs, write_rlex, write_runs};
use std::alloc::Global;
use std::process::Abort;
use std::test::Fail;

const RED: Rgb = Rgb { b: 0, g: 0, r: 255 };

const BLUE: Rgb = Rgb { b: 255, g: 0, r: 0 };

const ONE: Rgb = Rgb { b: 1, g: 0, r: 0 };

const TWO: Rgb = Rgb { b: 2, g: 0, r: 0 };

const THREE: Rgb = Rgb { b: 3, g: 0, r: 0 };

/// Bytes, an area, and the pixels that they give or why they are refused.
#[derive(Clone, Copy)]
struct Case<'a>(&'a [u8], u32, Result<&'a [Rgb], Refusal>);

fn says(rt: &impl Abort, answer: Result<(), Fault>, out: &Rgbs, due: Result<&[Rgb], Refusal>) {
    match due {
        Ok(pixels) => {
            assert!(rt; answer == Ok(()));
            assert!(rt; out.as_slice() == pixels);
        }
        Err(refusal) => assert!(rt; answer == Err(Fault::Refused(refusal))),
    }
}

#[test]
fn residual(rt: HostRuntime) {
    for Case(bytes, area, due) in [
        Case(&[0, 0, 0xFF, 2], 2, Ok(&[RED, RED])),
        Case(&[0, 0, 0xFF, 3], 2, Err(Refusal::RunTotal)),
        Case(&[0, 0, 0xFF, 0], 1, Err(Refusal::RunTotal)),
        Case(&[], 1, Err(Refusal::RunTotal)),
        Case(&[], 0, Ok(&[])),
        Case(&[0, 0, 0xFF], 1, Err(Refusal::ClearLengths)),
        Case(&[0, 0, 0xFF, 0xFF, 2], 2, Err(Refusal::ClearLengths)),
        Case(&[0, 0, 0xFF, 0xFF, 2, 0], 2, Ok(&[RED, RED])),
        Case(
            &[0, 0, 0xFF, 0xFF, 0xFF, 0xFF, 2, 0, 0, 0],
            2,
            Ok(&[RED, RED]),
        ),
        Case(&[0, 0, 0xFF, 1, 3, 0, 0, 0xFF, 1, 0], 2, Ok(&[RED, THREE])),
        // What is missing comes before what is too much.
        Case(&[0, 0, 0xFF, 5, 0, 0], 2, Err(Refusal::ClearLengths)),
    ] {
        let mut out = Rgbs::new(rt.alloc());
        let answer = read_runs(bytes, area, &mut out);
        says(&rt, answer, &out, due);
    }
}

// Twice 2^32 - 1 and 4 pixels are not 2.
#[test]
fn totals_do_not_wrap(rt: HostRuntime) {
    let most = 0xFF;
    let bytes = [
        0, 0, 255, most, most, most, most, most, most, most, 0, 0, 255, most, most, most, most,
        most, most, most, 0, 0, 255, 4,
    ];
    let mut out = Rgbs::new(rt.alloc());
    assert!(rt; read_runs(&bytes, 2, &mut out) == Err(Fault::Refused(Refusal::RunTotal)));
}

#[test]
fn rlex(rt: HostRuntime) {
    for Case(bytes, area, due) in [
        Case(&[1, 0xFF, 0, 0, 0, 3], 4, Ok(&[BLUE, BLUE, BLUE, BLUE])),
        Case(&[1, 0xFF, 0, 0, 0, 2], 4, Err(Refusal::RunTotal)),
        Case(&[1, 0xFF, 0, 0, 2, 0], 1, Err(Refusal::PaletteRange)),
        Case(&[1, 0xFF, 0, 0, 2], 1, Err(Refusal::ClearLengths)),
        Case(&[], 1, Err(Refusal::ClearLengths)),
        Case(&[0], 1, Err(Refusal::PaletteRange)),
        Case(&[0x80], 1, Err(Refusal::PaletteRange)),
        Case(&[0x7F, 1, 0, 0], 1, Err(Refusal::ClearLengths)),
        Case(&[1, 0xFF, 0, 0], 0, Ok(&[])),
        Case(
            &[3, 1, 0, 0, 2, 0, 0, 3, 0, 0, 0x0A, 1],
            4,
            Ok(&[ONE, ONE, TWO, THREE]),
        ),
        Case(
            &[3, 1, 0, 0, 2, 0, 0, 3, 0, 0, 0x03, 0],
            1,
            Err(Refusal::PaletteRange),
        ),
        Case(
            &[3, 1, 0, 0, 2, 0, 0, 3, 0, 0, 0x09, 0],
            1,
            Err(Refusal::PaletteRange),
        ),
        Case(
            &[3, 1, 0, 0, 2, 0, 0, 3, 0, 0, 0x01, 0, 0x0A, 0],
            4,
            Ok(&[TWO, ONE, TWO, THREE]),
        ),
    ] {
        let mut out = Rgbs::new(rt.alloc());
        let answer = read_rlex(bytes, area, &mut out);
        says(&rt, answer, &out, due);
    }
}

/// So many pixels of each colour, one colour after another.
fn pixels_of(alloc: Global, runs: &[(Rgb, usize)]) -> Result<Rgbs, NoMemory> {
    let mut pixels = Rgbs::new(alloc);
    for (colour, count) in runs {
        for _ in 0..*count {
            pixels.push(*colour)?;
        }
    }
    Ok(pixels)
}

/// Runs of pixels, and the bytes of both writers.
#[derive(Clone, Copy)]
struct Written<'a>(&'a [(Rgb, usize)], &'a [u8], &'a [u8]);

fn writes(rt: &impl Abort, alloc: Global, case: Written<'_>) -> Result<(), NoMemory> {
    let Written(runs, residual, rlex) = case;
    let pixels = pixels_of(alloc, runs)?;
    if pixels.len() < 100_000 {
        let mut out = Bytes::new(alloc);
        write_runs(pixels.as_slice(), &mut out)?;
        assert!(rt; out.as_slice() == residual);
        let mut out = Bytes::new(alloc);
        assert!(rt; write_rlex(pixels.as_slice(), &mut out)? == !rlex.is_empty());
        assert!(rt; out.as_slice() == rlex);
    }
    Ok(())
}

#[test]
fn both_writers(rt: HostRuntime) -> Result<(), Fail> {
    for case in [
        Written(&[], &[], &[]),
        Written(
            &[(ONE, 3), (TWO, 1)],
            &[1, 0, 0, 3, 2, 0, 0, 1],
            &[2, 1, 0, 0, 2, 0, 0, 0, 2, 1, 0],
        ),
        Written(
            &[(ONE, 254), (TWO, 255), (THREE, 256)],
            &[1, 0, 0, 254, 2, 0, 0, 255, 255, 0, 3, 0, 0, 255, 0, 1],
            &[3, 1, 0, 0, 2, 0, 0, 3, 0, 0, 0, 253, 1, 254, 2, 255, 255, 0],
        ),
        Written(
            &[(RED, 255)],
            &[0, 0, 255, 255, 255, 0],
            &[1, 0, 0, 255, 0, 254],
        ),
        Written(&[(BLUE, 4)], &[255, 0, 0, 4], &[1, 255, 0, 0, 0, 3]),
        Written(
            &[(RED, 65535)],
            &[0, 0, 255, 255, 255, 255, 255, 255, 0, 0],
            &[1, 0, 0, 255, 0, 255, 254, 255],
        ),
        Written(
            &[(RED, 65536)],
            &[0, 0, 255, 255, 255, 255, 0, 0, 1, 0],
            &[1, 0, 0, 255, 0, 255, 255, 255, 255, 255, 0, 0],
        ),
    ] {
        writes(&rt, rt.alloc(), case).ok().ok_or("no memory")?;
    }
    Ok(())
}
