//! The program's call `serve`.

ghost use Rattle.std.specs.Prelude.{◌≡◌, map, false};
ghost use Rattle.fv_base.specs.Words.{form_of};
ghost use Rattle.live_serve.specs.Roles.{controller_of};
ghost use Rattle.live_serve.specs.Running.{outside, IsRunCause};
ghost use Rattle.live_serve.specs.Serving.{IsServeCause, ServeCauses, LeavesReads, ServeEnded, ServeCompletes};

use crate::accept::{RunEnd, accept_all};
use crate::finish::Finish;
use crate::group::WorkFacts;
use crate::work::SessionWork;
use flowspace::Policy;
use fv_base::{Files, Form, Sink, Words, WordsFault, read_words};
use fv_cli::{Ending, load_policy};
use fv_live::{Clock, Host, Spawner, Wires};
use live_session::Gate;
use std::alloc::Global;
use std::net::{Net, TcpListener, TcpStream};

/// Listens at the place, and accepts so many connections there. Then it stops listening.
fn run<
    R: Host + Net<Listener = TcpListener, Stream = TcpStream>,
    N: Wires,
    C: Clock + Clone,
    G: Gate + Clone,
    P: Spawner<SessionWork<N, C, G>>,
>(
    rt: &R,
    policy: &Policy,
    listen: &str,
    count: u32,
    wires: &mut N,
    facts: &WorkFacts<'_, C, G>,
    spawner: &mut P,
) -> RunEnd
    requires silent { N.listens wires.old ≡ false }
    requires can { P.can_start spawner.old }
    ensures can { P.can_start spawner.new }
    ensures cause { IsRunCause (map controller_of policy.now.slices) count (outside (N.accepted wires.old) (P.roles spawner.old) (N.faults wires.old listen.now) (P.faults spawner.old)) (outside (N.accepted wires.new) (P.roles spawner.new) (N.faults wires.new listen.now) (P.faults spawner.new)) result }
{
    let Ok(()) = wires.listen(rt, listen) else {
        return RunEnd::WireFault;
    };
    let end = accept_all(rt, policy, count, wires, facts, spawner);
    wires.close();
    end
}

/// What the words of `serve` ask for: the path of the policy, the place where to listen, and how many connections are
/// to be accepted.
#[derive(Drop)]
struct Asked<'a> {
    policy: &'a str,
    listen: &'a str,
    count: u32,
}

/// Serves with the policy at a path.
fn serve_with<
    R: Host + Net<Listener = TcpListener, Stream = TcpStream>,
    F: Files,
    N: Wires,
    C: Clock + Clone,
    G: Gate + Clone,
    P: Spawner<SessionWork<N, C, G>>,
>(
    rt: &R,
    asked: &Asked<'_>,
    files: &mut F,
    wires: &mut N,
    facts: &WorkFacts<'_, C, G>,
    spawner: &mut P,
) -> Finish
    requires silent { N.listens wires.old ≡ false }
    requires can { P.can_start spawner.old }
    ensures can { P.can_start spawner.new }
    ensures cause { IsServeCause (record { files = F.contents files.old; before = F.faults files.old; after = F.faults files.new }) asked.now.policy.now asked.now.count (outside (N.accepted wires.old) (P.roles spawner.old) (N.faults wires.old asked.now.listen.now) (P.faults spawner.old)) (outside (N.accepted wires.new) (P.roles spawner.new) (N.faults wires.new asked.now.listen.now) (P.faults spawner.new)) result }
    ensures reads { LeavesReads result (F.faults files.old) (F.faults files.new) }
{
    let policy = match load_policy(facts.alloc, files, asked.policy) {
        Ok(policy) => policy,
        Err(ending) => return Finish::Early(ending),
    };
    // A call on the policy shows the proof that it is accepted.
    let _slices = policy.slices();
    let end = run(
        rt,
        &policy,
        asked.listen,
        asked.count,
        wires,
        facts,
        spawner,
    );
    Finish::Ran(end)
}

/// Does what the words ask for.
fn decide<
    R: Host + Net<Listener = TcpListener, Stream = TcpStream>,
    F: Files,
    N: Wires,
    C: Clock + Clone,
    G: Gate + Clone,
    P: Spawner<SessionWork<N, C, G>>,
>(
    rt: &R,
    words: &Words,
    files: &mut F,
    wires: &mut N,
    facts: &WorkFacts<'_, C, G>,
    spawner: &mut P,
) -> Finish
    requires silent { N.listens wires.old ≡ false }
    requires can { P.can_start spawner.old }
    ensures can { P.can_start spawner.new }
    ensures cause { ServeCauses (record { files = F.contents files.old; before = F.faults files.old; after = F.faults files.new }) (λ at. outside (N.accepted wires.old) (P.roles spawner.old) (N.faults wires.old at) (P.faults spawner.old)) (λ at. outside (N.accepted wires.new) (P.roles spawner.new) (N.faults wires.new at) (P.faults spawner.new)) (form_of words.now) result }
    ensures reads { LeavesReads result (F.faults files.old) (F.faults files.new) }
{
    match read_words(words) {
        Ok(
            Form::Serve {
                policy,
                listen,
                count,
            },
        ) => {
            let asked = Asked {
                policy,
                listen,
                count,
            };
            serve_with(rt, &asked, files, wires, facts, spawner)
        }
        Ok(Form::Check { .. }) => Finish::Early(Ending::Usage),
        Ok(Form::Replay { .. }) => Finish::Early(Ending::Usage),
        Ok(Form::Gen { .. }) => Finish::Early(Ending::Usage),
        Ok(Form::Virtual { .. }) => Finish::Early(Ending::Usage),
        Ok(Form::Change { .. }) => Finish::Early(Ending::Usage),
        Ok(Form::Flatten { .. }) => Finish::Early(Ending::Usage),
        Ok(Form::Audit { .. }) => Finish::Early(Ending::Usage),
        Ok(Form::Trace { .. }) => Finish::Early(Ending::Usage),
        Err(WordsFault::Usage) => Finish::Early(Ending::Usage),
    }
}

/// Does `serve POLICY LISTEN COUNT`: listens at LISTEN, accepts COUNT connections of switches, and runs a session
/// under the policy for each, at most 16 at once. A connection that is accepted while 16 run is closed, and
/// so is one that is accepted while threads of 48 connections run. `spawner` starts each session's threads,
/// with clones of the clock and of the gate. Each status but 0 has a line, which goes to `err`. Once no more
/// connections are accepted it stops listening and puts that line. Then it waits until all sessions have
/// ended, and answers the exit status.
///
/// | status | means |
/// |---|---|
/// | 0 | COUNT connections were accepted, and their sessions have ended |
/// | 1 | the words aren't of this form |
/// | 2 | the policy was read and is refused; the line says why and where |
/// | 4, 6, 7 | the policy can't be read; out of memory; the policy is larger than 1 MiB |
/// | 9, 10 | it couldn't listen or accept; a thread wasn't started |
pub fn serve<
    R: Host + Net<Listener = TcpListener, Stream = TcpStream>,
    F: Files,
    N: Wires,
    C: Clock + Clone,
    G: Gate + Clone,
    P: Spawner<SessionWork<N, C, G>>,
    E: Sink,
>(
    rt: &R,
    alloc: Global,
    words: &Words,
    files: &mut F,
    wires: &mut N,
    clock: &C,
    gate: &G,
    spawner: &mut P,
    err: &mut E,
) -> u8
    requires silent { N.listens wires.old ≡ false }
    requires can { P.can_start spawner.old }
    ensures can { P.can_start spawner.new }
    ensures ended { ServeEnded (record { files = F.contents files.old; before = F.faults files.old; after = F.faults files.new }) (λ at. outside (N.accepted wires.old) (P.roles spawner.old) (N.faults wires.old at) (P.faults spawner.old)) (λ at. outside (N.accepted wires.new) (P.roles spawner.new) (N.faults wires.new at) (P.faults spawner.new)) words.now (E.contents err.old) (E.contents err.new) (E.faults err.old) (E.faults err.new) result }
    ensures complete { ServeCompletes (record { files = F.contents files.old; before = F.faults files.old; after = F.faults files.new }) (λ at. outside (N.accepted wires.old) (P.roles spawner.old) (N.faults wires.old at) (P.faults spawner.old)) (λ at. outside (N.accepted wires.new) (P.roles spawner.new) (N.faults wires.new at) (P.faults spawner.new)) (form_of words.now) result }
{
    let facts = WorkFacts { alloc, clock, gate };
    let finish = decide(rt, words, files, wires, &facts, spawner);
    finish.say(err);
    spawner.finish(rt);
    finish.status()
}
