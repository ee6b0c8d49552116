//! Writes the image of a driver's source text: `forge_source SOURCE LABEL SYS`.
#![tactic(auto)]

ghost use Rattle.std.specs.Prelude.{IfOk, IfErr};
ghost use Rattle.image_forge.specs.Forged.{IsForged, IsUnforged};

use anyhow::{Context, Result, bail};
use image_forge::{Parts, forge_image};
use nd_base::Bytes;
use std::alloc::Global;
use std::rt::{Env, Files};
use std::{env, fs};
use sys_forge::ForgeRefusal;

/// The file of the image of a source text, whose entry point is at the label.
fn image_of(alloc: Global, text: &[u8], label: &[u8]) -> Result<Bytes, ForgeRefusal>
    ensures ok { IfOk result (λ file. IsForged text.now label.now file) }
    ensures err { IfErr result (λ why. IsUnforged text.now label.now why) }
{
    let Ok(source) = Bytes::copy(alloc, text) else {
        return Err(ForgeRefusal::OutOfMemory);
    };
    match Bytes::copy(alloc, label) {
        Ok(entry) => forge_image(alloc, &Parts { source, entry }),
        Err(_) => Err(ForgeRefusal::OutOfMemory),
    }
}

/// Reads a source, and writes its image.
fn forge<R: Files + AllocGlobal>(rt: &R, source: &str, label: &str, sys: &str) -> Result<()> {
    let text = fs::read(rt, source).context("reading the source")?;
    let file = image_of(rt.alloc(), text.as_slice(), label.as_bytes())?;
    fs::write(rt, sys, file.as_slice()).context("writing the image")
}

/// The words behind the program's name, with which it does its work.
fn run<R: Env + Files + AllocGlobal>(rt: &R) -> Result<()> {
    let mut words = Vec::new(rt.alloc());
    for word in env::args(rt)?.skip(1) {
        words.push(word)?;
    }
    match words.as_slice() {
        [source, label, sys] => forge(rt, source.as_str(), label.as_str(), sys.as_str()),
        _ => bail!("three words are wanted: SOURCE LABEL SYS"),
    }
}

fn main(rt: HostRuntime) -> Result<()> {
    run(&rt)
}
