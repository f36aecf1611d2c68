//! `lsr config` on the configuration of a file, or on the built-in one.
ghost use Rattle.std.specs.Option.{option_map};
ghost use Rattle.std.specs.Prelude.{◌≡◌, ◌↔◌, ℕ, List, [], Option, IfOk, IfErr, IsTrue};
ghost use Rattle.std.specs.Io.KnownBytes.{Appends};
ghost use Rattle.line_streams.specs.Texts.{Stream};
ghost use Rattle.lsr_config.specs.declared.fault.ConfigFault.TheVariants.{Memory};
ghost use Rattle.lsr_runs.specs.declared.endings.RunEnding.{RunEnding};
ghost use Rattle.lsr_tool.specs.Configuring.{Configures, GivesAddresses, Prints, PrintsConfig, done};
ghost use Rattle.lsr_runs.specs.Endings.{ending_text, status_of};
ghost use Rattle.lsr_runs.specs.Sessions.{IsConfigText};

use config_text::config_text;
use line_streams::ByteStream;
use lsr_config::{Config, ConfigFault, LinkSockets};
use lsr_runs::{
    DONE, FilesByName, RunEnding, Source, misconfigured, read_config_text, said, status_of,
    tell_ending,
};
use lsr_serve::read_sockets;
use std::alloc::{AllocError, Global};
use std::io;
use std::io::Write;

/// Whether memory ran out.
fn is_memory(fault: &ConfigFault) -> bool
    ensures { IsTrue result ↔ (fault.now ≡ Memory) }
{
    matches!(fault, ConfigFault::Memory)
}

/// The socket addresses that a configuration's text gives its links, or none where it doesn't give each link both. The only
/// error is that memory ran out.
fn read_addresses(alloc: Global, text: &str) -> Result<Vec<(u16, LinkSockets)>, AllocError>
    ensures { IfOk result (λ rows. GivesAddresses text.now rows.items) }
{
    let fault = match read_sockets(alloc, text) {
        Ok(sockets) => return Ok(sockets.into_rows()),
        Err(fault) => fault,
    };
    if is_memory(&fault) {
        return Err(AllocError);
    }
    Ok(Vec::new(alloc))
}

/// What is printed of the configuration that the text says; or how a run ends that prints nothing of it.
fn print_text<'a>(alloc: Global, text: &str) -> Result<Vec<u8>, RunEnding<'a>>
    ensures printed { IfOk result (λ printed. Prints text.now printed.items) }
    ensures fault { IfErr result (λ ending. (stream : Option Stream) → IsConfigText stream text.now → PrintsConfig stream [] ending) }
{
    let config = match Config::read(alloc, text) {
        Ok(config) => config,
        Err(fault) => return Err(misconfigured(alloc, text, fault)),
    };
    let Ok(addresses) = read_addresses(alloc, text) else {
        return Err(RunEnding::Memory);
    };
    match config_text(alloc, &config, addresses.as_slice()) {
        Ok(printed) => Ok(printed),
        Err(_) => Err(RunEnding::Memory),
    }
}

/// What is printed of the configuration of the stream, or without one of the built-in one; or how a run ends that prints
/// nothing.
fn print_config<'a, C: ByteStream + Drop>(
    alloc: Global,
    config: Option<C>,
) -> Result<Vec<u8>, RunEnding<'a>>
    ensures printed { IfOk result (λ printed. PrintsConfig (option_map C.stream config) printed.items done) }
    ensures fault { IfErr result (PrintsConfig (option_map C.stream config) []) }
{
    let text = match read_config_text(alloc, config) {
        Ok(text) => text,
        Err(fault) => return Err(RunEnding::Unread(Source::Config, fault)),
    };
    match print_text(alloc, said(&text)) {
        Ok(printed) => Ok(printed),
        Err(ending) => Err(ending),
    }
}

/// `lsr config` on a configuration, which has this name, or without one on the built-in one: prints it as the router
/// understands it, or tells on the error stream why it doesn't. Gives the status, 0 or 1. The error is that a stream could not
/// be written.
fn run_config<C: ByteStream + Drop, W: Write, E: Write>(
    alloc: Global,
    name: &str,
    config: Option<C>,
    output: &mut W,
    error: &mut E,
) -> io::Result<u8>
    ensures { IfOk result (λ status. (ending : RunEnding) × (printed : List ℕ) × (status ≡ status_of ending)
        × PrintsConfig (option_map C.stream config) printed ending
        × Appends (W.contents output.old) (W.contents output.new) printed
        × Appends (E.contents error.old) (E.contents error.new) (ending_text name.now ending)) }
{
    match print_config(alloc, config) {
        Ok(printed) => {
            output.write_all(printed.as_slice())?;
            Ok(DONE)
        }
        Err(ending) => {
            tell_ending(error, name, &ending)?;
            Ok(status_of(&ending))
        }
    }
}

/// `lsr config [FILE]`: as [`run_config`], on the configuration of the file of this name, or without one on the built-in one. A
/// file that can't be opened is told as one that can't be read.
pub fn run_config_of<F: FilesByName, W: Write, E: Write>(
    files: &F,
    alloc: Global,
    file: Option<&str>,
    output: &mut W,
    error: &mut E,
) -> io::Result<u8>
    ensures { IfOk result (Configures (F.opens files.now) (F.fails files.now) F.File.stream (option_map (λ f. f.now) file.entry)
        (W.contents output.old) (W.contents output.new) (E.contents error.old) (E.contents error.new)) }
{
    let Some(name) = file else {
        return run_config(alloc, "", None::<F::File>, output, error);
    };
    match files.open(name) {
        Ok(stream) => run_config(alloc, name, Some(stream), output, error),
        Err(fault) => {
            let ending = RunEnding::Unread(Source::Config, fault);
            tell_ending(error, name, &ending)?;
            Ok(status_of(&ending))
        }
    }
}
