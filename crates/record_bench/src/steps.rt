//! The steps from load lists to a text that is read again.

ghost use Rattle.std.specs.Prelude.{All};
ghost use Rattle.host_record.specs.Canonical.{IsCanonical};
ghost use Rattle.load_model.specs.Opening.{AreFew};
ghost use Rattle.load_model.specs.Runs.{IsRunOver};
ghost use Rattle.lib_closure.specs.Splits.{split_of};
ghost use Rattle.std.specs.Prelude.{◌≡◌, Ok, ◌<◌, length};

use host_list::{Record, read_record, record_of, write_record};
use lib_closure::{Split, split};
use load_model::{Face, Name, Run};
use std::io;

/// Splits the objects of these runs by a host list, and goes on from there.
pub fn split_runs(rt: &HostRuntime, faces: &[Face], runs: &[Run], names: &[Name]) -> io::Result<()>
    requires runs { All (IsRunOver faces.now) runs.now }
    requires few { AreFew faces.now }
{
    println!(rt; "loaded")?;
    match split(rt.alloc(), faces, runs, names) {
        Ok(split) if !runs.is_empty() => {
            println!(rt; "split")?;
            record_split(rt, faces, runs, &split, names)
        }
        _ => println!(rt; "no split"),
    }
}

/// Records what the runs ask of the host libraries of their split.
#[tactic(auto, using(host_list::proofs::ClosingLemmas::split_interps))]
fn record_split(
    rt: &HostRuntime,
    faces: &[Face],
    runs: &[Run],
    split: &Split,
    names: &[Name],
) -> io::Result<()>
    requires runs { All (IsRunOver faces.now) runs.now }
    requires few { AreFew faces.now }
    requires some { 0 < length runs.now }
    requires split { split_of faces.now runs.now names.now ≡ Ok split.now }
{
    match record_of(rt.alloc(), faces, faces, runs, split) {
        Ok(rec) => {
            println!(rt; "made {} looks", rec.looks.as_slice().len())?;
            write_and_read(rt, &rec)
        }
        Err(_) => println!(rt; "no memory"),
    }
}

/// Writes a record, reads it again, and prints its text.
fn write_and_read(rt: &HostRuntime, rec: &Record) -> io::Result<()>
    requires { IsCanonical rec.now }
{
    match write_record(rt.alloc(), rec) {
        Ok(text) => {
            println!(rt; "written {} bytes", text.as_bytes().len())?;
            read_again(rt, text.as_bytes())?;
            let lines = str::from_utf8(text.as_bytes()).unwrap_or("no text");
            println!(rt; "{}", lines.trim_end())
        }
        Err(_) => println!(rt; "no memory"),
    }
}

/// Reads a text, and says how many looks it has.
fn read_again(rt: &HostRuntime, text: &[u8]) -> io::Result<()> {
    match read_record(rt.alloc(), text) {
        Ok(rec) => println!(rt; "read {} looks", rec.looks.as_slice().len()),
        Err(_) => println!(rt; "not read"),
    }
}
