//! What the program does once its words are known, over any writer and any sink for its line.

ghost use Rattle.std.specs.Prelude.{ℕ, List, ◌≡◌, ◌⊎◌, ◌&&◌, ◌==◌, if◌then◌else◌, is_err, false, true, map, string_bytes, IfOk, None, Some};
ghost use Rattle.fv_base.specs.Told.{appended, IsBeginning, Rose};
ghost use Rattle.fv_base.specs.Words.{form_of, is_serve};
ghost use Rattle.fv_cli.specs.declared.ending.Ending.TheVariants.{WriteFault};
ghost use Rattle.fv_cli.specs.Endings.{ending_status, ending_line, IsPut};
ghost use Rattle.flowvisor.specs.Asked.{text_in, EndedSo, Suits};
ghost use Rattle.flowvisor.specs.Served.{ServedBy, WordsHadNoMemory};

use crate::clock::SystemClock;
use crate::help_and_version::text_for;
use crate::sockets::Sockets;
use crate::stream::Stream;
use fv_base::{Failed, Files, Sink, Words, is_serve, put_all};
use fv_cli::{Ending, offline};
use fv_live::{Host, Spawner};
use live_serve::{OpenGate, SessionWork, serve};
use std::alloc::{AllocError, Global};
use std::io::{BufWriter, Write};
use std::net::{Net, TcpListener, TcpStream};

/// How many bytes of output are gathered before they are written.
const OUTPUT_PIECE: usize = 262_144;

/// Puts the line of an ending, and answers its status.
pub fn end<E: Sink>(err: &mut E, ending: &Ending) -> u8
    ensures status { result ≡ ending_status ending.now }
    ensures line { IsPut (ending_line ending.now) (E.contents err.old) (E.contents err.new) (E.faults err.old) (E.faults err.new) }
{
    ending.say(err);
    ending.status()
}

/// Puts a text that was asked for, and answers the status.
fn show<O: Sink, E: Sink>(text: &str, out: &mut O, err: &mut E) -> u8
    ensures done { result ≡ 0 → (O.contents out.new ≡ appended (O.contents out.old) text.now) × (O.faults out.new ≡ O.faults out.old) }
    ensures fault { (result ≡ 0) ⊎ ((result ≡ 5) × ((piece : List ℕ) × IsBeginning piece text.now × (O.contents out.new ≡ appended (O.contents out.old) piece)) × Rose (O.faults out.old) (O.faults out.new)) }
    ensures ended { EndedSo (Suits (Some text.now) None) (E.contents err.old) (E.contents err.new) (E.faults err.old) (E.faults err.new) result }
{
    match put_all(out, text.as_bytes()) {
        Ok(()) => Ending::Done.status(),
        Err(_) => end(err, &Ending::WriteFault),
    }
}

// A flush that fails is a fault of writing, where the run reported none.
fn after_flush<E: Sink>(status: u8, flushed: Result<(), Failed>, err: &mut E) -> u8
    ensures status { result ≡ (if status == 0 && is_err flushed then 5 else status) }
    ensures line { (status == 0 && is_err flushed) ≡ true → IsPut (ending_line WriteFault) (E.contents err.old) (E.contents err.new) (E.faults err.old) (E.faults err.new) }
    ensures quiet { (status == 0 && is_err flushed) ≡ false → (E.contents err.new ≡ E.contents err.old) × (E.faults err.new ≡ E.faults err.old) }
{
    if status == 0 && flushed.is_err() {
        return end(err, &Ending::WriteFault);
    }
    status
}

/// Runs with these words; what is written is gathered, and flushed at the end.
fn run<F: Files, W: Write + Drop, E: Sink>(
    alloc: Global,
    words: &Words,
    files: &mut F,
    writer: W,
    err: &mut E,
) -> u8
    ensures { EndedSo (Suits None (form_of words.now)) (E.contents err.old) (E.contents err.new) (E.faults err.old) (E.faults err.new) result }
{
    let Ok(writer) = BufWriter::with_capacity(alloc, OUTPUT_PIECE, writer) else {
        return end(err, &Ending::NoMemory);
    };
    let mut out = Stream::new(writer);
    let status = offline(alloc, words, files, &mut out, err);
    after_flush(status, out.finish(), err)
}

/// The work of one thread of a session over sockets, by this runtime's clock.
pub type LiveWork<R> = SessionWork<Sockets, SystemClock<R>, OpenGate>;

/// Serves as these words ask for.
fn serve_over_sockets<
    R: Host + Net<Listener = TcpListener, Stream = TcpStream>,
    F: Files,
    P: Spawner<LiveWork<R>>,
    E: Sink,
>(rt: &R, alloc: Global, words: &Words, files: &mut F, spawner: &mut P, err: &mut E) -> u8
    requires can { P.can_start spawner.old }
    ensures { ServedBy (record { files = F.contents files.old; before = F.faults files.old; after = F.faults files.new }) (P.roles spawner.old) (P.roles spawner.new) (P.faults spawner.old) (P.faults spawner.new) words.now (E.contents err.old) (E.contents err.new) (E.faults err.old) (E.faults err.new) result }
{
    serve(
        rt,
        alloc,
        words,
        files,
        &mut Sockets::new(alloc),
        &SystemClock::new(*rt),
        &OpenGate,
        spawner,
        err,
    )
}

fn all(alloc: Global, each: &[String]) -> Result<Words, AllocError>
    ensures { IfOk result (λ w. w ≡ map string_bytes each.now) }
{
    let mut words = Words::new(alloc);
    for word in each {
        words.push(word.as_str())?;
    }
    Ok(words)
}

/// Does what these words ask for, and answers the status.
pub fn answer<
    R: Host + Net<Listener = TcpListener, Stream = TcpStream>,
    F: Files,
    P: Spawner<LiveWork<R>>,
    W: Write + Drop,
    E: Sink,
>(
    rt: &R,
    alloc: Global,
    words: &[String],
    files: &mut F,
    spawner: &mut P,
    writer: W,
    err: &mut E,
) -> u8
    requires can { P.can_start spawner.old }
    ensures ended { is_serve (map string_bytes words.now) ≡ false → EndedSo (Suits (text_in (map string_bytes words.now)) (form_of (map string_bytes words.now))) (E.contents err.old) (E.contents err.new) (E.faults err.old) (E.faults err.new) result }
    ensures served { is_serve (map string_bytes words.now) ≡ true → ServedBy (record { files = F.contents files.old; before = F.faults files.old; after = F.faults files.new }) (P.roles spawner.old) (P.roles spawner.new) (P.faults spawner.old) (P.faults spawner.new) (map string_bytes words.now) (E.contents err.old) (E.contents err.new) (E.faults err.old) (E.faults err.new) result ⊎ WordsHadNoMemory (E.contents err.old) (E.contents err.new) (E.faults err.old) (E.faults err.new) result }
{
    if let Some(text) = text_for(words) {
        return show(text, &mut Stream::new(writer), err);
    }
    let Ok(words) = all(alloc, words) else {
        return end(err, &Ending::NoMemory);
    };
    if is_serve(&words) {
        serve_over_sockets(rt, alloc, &words, files, spawner, err)
    } else {
        run(alloc, &words, files, writer, err)
    }
}
