//! The commands of the program, over an outside that may fail at any call.
//!
//! `agent_main` is the top call. Over an honest host its contract says, for every input and whatever
//! fails: what is told is a prefix of a stated function of the bytes taken, and all of it unless the
//! output, the disk or memory failed. It says what a crash may leave of the database at any moment, and
//! why the run ended with the status that it answers. Of `run`, `collect`, `query`, `health`, `log`, `send` and
//! `receive` it says so where the disk reads as a database of a history. Whatever the command, each file of the
//! database stays within its share at every moment.
//!
//! It stands on `line_stream` for the lines of a stream, on `plugin_runner` for those of a program that is run as a
//! collector, and on `point_lines` for what the lines of a text tell. `link_session` is what two agents say to each
//! other, `agent_core` the agent whose beats are stored, and `host_model` the outside.
#![tactic(auto)]

ghost use Rattle.std.specs.Prelude.{◌≡◌, ◌⊎◌, ℕ, None, Some};
ghost use Rattle.agent_app.specs.Bound.{StaysBy};
ghost use Rattle.agent_app.specs.Collect.{collector_of, outside_of, CollectsAll};
ghost use Rattle.agent_app.specs.Command.{command_of, settings_for};
ghost use Rattle.agent_app.specs.Convert.{Converts, EndsAsText, LeavesDisk};
ghost use Rattle.agent_app.specs.declared.command.Form.{Form as AForm};
ghost use Rattle.agent_app.specs.declared.command.Plan.{Plan as APlan};
ghost use Rattle.agent_app.specs.Health.{ConfiguresAll};
ghost use Rattle.agent_app.specs.Log.{log_for};
ghost use Rattle.agent_app.specs.New.{Makes};
ghost use Rattle.agent_app.specs.Query.{question_of, reply_for, Asks};
ghost use Rattle.agent_app.specs.Receive.{ReceivesAll};
ghost use Rattle.agent_app.specs.Run.{RunsAll};
ghost use Rattle.agent_app.specs.Send.{SendsAll};
ghost use Rattle.link_session.specs.Session.{link_seen};

use collect::collect_words;
use command::Command;
use convert::convert;
use fixed_num::WordsList;
use health::health;
use host_model::{Clock, Host, Link, Source, Spawner, Status};
use log::log;
use new::new;
use query::query;
use receive::receive;
use run::run;
use send::send;
use std::alloc::Global;

mod collect;
mod command;
mod convert;
mod converting;
mod forms;
mod health;
mod health_text;
mod law;
mod log;
mod log_json;
mod log_text;
mod new;
mod query;
mod receive;
mod refusals;
mod run;
mod running;
mod send;
mod sessions;
mod statuses;

pub use law::crashes_leave_what_was_stored;

/// Does what the words of a command line ask for, and says how it ended.
///
/// `convert` reads the text of collectors from `source` and tells its points, a line each: the
/// moment, the chart, the dimension and the value, then ` A` where it is anomalous and ` R` where
/// its counter was reset. A text that ends, or that a DISABLE line ends, tells `SKIPPED` and how
/// many lines were skipped, if any were. A text that is refused tells `REFUSED`, the number of the
/// line and the number of the refusal, after the points of the beats before. Where a moment is not
/// above the last one, that is told behind the two numbers. A text that asks for too many charts or
/// dimensions tells `LIMIT` so. No more than `line_stream::INPUT_LIMIT` bytes, 2^40, are taken of the
/// input. Any command may run out of memory at any place, and ends with `Status::Memory` then.
///
/// `new ID`, or `new ID P0 Q0 P1 Q1 P2 Q2`, makes a database on the host's disk: its id below 2^64,
/// and for each tier how many items make a segment full and how many segments are kept. `Exists`
/// where there is one.
///
/// `run` stores the beats of such a text behind those of the database. As soon as a beat is stored it tells
/// `STORED` and the beat's number in the history, and then a line for each event of an alarm that the beat
/// makes: no crash loses the beat then. A refusal is told as by `convert`, and the beats before it stay. A
/// QUERY line is answered at its place, over the history there: with `ROWS`, how many windows there are and
/// the ids of the dimensions, and then a line for each window, its start and its values. Or it is answered
/// with `ERROR` and a number, which ends nothing.
///
/// `collect EVERY STARTS PROGRAM [ARG..]` starts a program and stores the beats of what it writes, as `run` does with
/// its input. EVERY is how many seconds lie between beats, 1 to 86,400: the program is handed it before its own
/// arguments, and the charts whose line leaves the update_every open have it. The program is started again each time
/// that it ends with 0, until STARTS starts were made, 1 to 1,000. The MOMENT lines that close its beats are put
/// between its lines, each above the database's last moment. `SpawnFault` where the program cannot be started or
/// read, and `Disabled` where it ends with another status or prints DISABLE. The beats that were closed before are
/// stored then.
///
/// `health` stores the input, at most 2^20 bytes, as the configuration of alarms, and tells `STORED`, its number
/// in the history and a line for each alarm that goes. A text that is refused tells `REFUSED`, the number of
/// the line and that of the refusal, and too many alarms or bytes tell `LIMIT` so; nothing is stored then.
///
/// `log text` tells `DROPPED`, how many events of the alarms are not shown, and a line for each of the last
/// 1,000, the earliest first. `log json` tells the same as one line of JSON. Nothing changes in the database.
///
/// `send ADDRESS` answers the parent at the other end of the link with copies of the points of the database, from
/// where that asks, until it has them all. Nothing changes in the database. `receive ADDRESS` stores what the child
/// at the other end of the link sends behind the history of the database, which is a copy of that child's. As soon
/// as a part of it is stored it tells `STORED` and the number of its last beat in the history, and then a line for
/// each event that its beats make. After that the child is answered. What the database does not take is told as
/// `REFUSED 0` or `LIMIT 0` and the number of the refusal. No more than as many bytes are taken of the link.
/// `LinkFault` where a call on the link fails, `PeerRefused` where one end refuses the other, and `LinkEnded` where
/// the other end sends no more before it was done. Where nothing outside fails, the frames in all the bytes of the
/// link and what stands behind them give the status, or it is `Memory`. The link knows the address.
///
/// `query CHART AFTER BEFORE WINDOW GROUP [WORD..]` answers that question from the database, which
/// nothing changes. The status is 0 where `ERROR` is told too. No word of it begins with `-`.
pub fn agent_main<S: Source, H: Host, L: Link, P: Spawner, C: Clock>(
    alloc: Global,
    words: &WordsList,
    source: &mut S,
    host: &mut H,
    link: &mut L,
    spawner: &mut P,
    clock: &mut C,
) -> Status
    // Words in no form are refused, or there was no memory to read them. Nothing is touched then.
    ensures usage { result ≡ Status.Usage → command_of words.now ≡ None }
    ensures no_form { command_of words.now ≡ None →
        (result ≡ Status.Usage) ⊎ (result ≡ Status.Memory) }
    ensures untouched { command_of words.now ≡ None →
        (source.new ≡ source.old) × (host.new ≡ host.old) × (link.new ≡ link.old) }

    // What was told, and why the run ended.
    ensures converts { command_of words.now ≡ Some Command.Convert →
        Converts result H.honest (S.left source.old) (S.left source.new)
        (H.seen host.old).past (H.seen host.new).past (S.faults source.old) (S.faults source.new)
        (H.seen host.old).tell_faults (H.seen host.new).tell_faults }

    // It touches no file, whatever it tells and whatever fails.
    ensures leaves_disk { command_of words.now ≡ Some Command.Convert →
        LeavesDisk H.honest (H.seen host.old) (H.seen host.new) }

    // Where nothing outside fails, the status is that of the text, or memory ran out.
    ensures complete { command_of words.now ≡ Some Command.Convert →
        EndsAsText result (S.left source.old) (S.faults source.old) (S.faults source.new)
        (H.seen host.old).tell_faults (H.seen host.new).tell_faults }

    // What a new database is, and what crashes leave of it.
    ensures makes { (plan : APlan) → command_of words.now ≡ Some (Command.New plan) →
        Makes H.honest (settings_for plan) result (H.seen host.old) (H.seen host.new) }

    // It takes nothing of the input.
    ensures new_takes_nothing { (plan : APlan) →
        command_of words.now ≡ Some (Command.New plan) → source.new ≡ source.old }

    // What a run stores and tells, what crashes leave, and why it ended.
    ensures runs { command_of words.now ≡ Some Command.Run →
        RunsAll H.honest result (S.left source.old) (S.left source.new)
        (S.faults source.old) (S.faults source.new) (H.seen host.old) (H.seen host.new) }

    // What a collector stores and tells, what crashes leave, and why it ended. It takes nothing of the input.
    ensures collects { (every starts : ℕ)
        → command_of words.now ≡ Some (Command.Collect every starts)
        → CollectsAll H.honest (collector_of every starts words.now) result
        (outside_of (P.children spawner.old) (P.faults spawner.old) (C.readings clock.old))
        (outside_of (P.children spawner.new) (P.faults spawner.new) (C.readings clock.new))
        (H.seen host.old) (H.seen host.new) }
    ensures collect_takes_nothing { (every starts : ℕ)
        → command_of words.now ≡ Some (Command.Collect every starts) → source.new ≡ source.old }

    // No other command starts a program or asks the time.
    ensures uncollected { ((every starts : ℕ)
        → command_of words.now ≡ Some (Command.Collect every starts) → ⊥)
        → (spawner.new ≡ spawner.old) × (clock.new ≡ clock.old) }

    // What a parent is sent, and why that ended. Nothing changes in the database.
    ensures sends { command_of words.now ≡ Some Command.Send →
        SendsAll H.honest result
        (link_seen (L.sent link.old) (L.left link.old) (L.faults link.old))
        (link_seen (L.sent link.new) (L.left link.new) (L.faults link.new))
        (H.seen host.old) (H.seen host.new) }
    ensures send_takes_nothing { command_of words.now ≡ Some Command.Send →
        source.new ≡ source.old }

    // What is stored of a child and told, what crashes leave, what is answered, and why that ended.
    ensures receives { command_of words.now ≡ Some Command.Receive →
        ReceivesAll H.honest result
        (link_seen (L.sent link.old) (L.left link.old) (L.faults link.old))
        (link_seen (L.sent link.new) (L.left link.new) (L.faults link.new))
        (H.seen host.old) (H.seen host.new) }
    ensures receive_takes_nothing { command_of words.now ≡ Some Command.Receive →
        source.new ≡ source.old }

    // No other command talks to another agent.
    ensures unlinked { (command_of words.now ≡ Some Command.Send → ⊥)
        → (command_of words.now ≡ Some Command.Receive → ⊥) → link.new ≡ link.old }

    // What a question is answered with, and why it was not.
    ensures asks { command_of words.now ≡ Some Command.Query →
        Asks H.honest (reply_for (question_of words.now)) result
        (H.seen host.old) (H.seen host.new) }
    ensures query_takes_nothing { command_of words.now ≡ Some Command.Query →
        source.new ≡ source.old }

    // What a configuration of alarms stores and tells, what crashes leave, and why it ended.
    ensures configures { command_of words.now ≡ Some Command.Health →
        ConfiguresAll H.honest result (S.left source.old) (S.left source.new)
        (S.faults source.old) (S.faults source.new) (H.seen host.old) (H.seen host.new) }

    // What the log of the alarms is told as, and why it was not.
    ensures logs { (form : AForm) → command_of words.now ≡ Some (Command.Log form) →
        Asks H.honest (log_for form) result (H.seen host.old) (H.seen host.new) }
    ensures log_takes_nothing { (form : AForm) → command_of words.now ≡ Some (Command.Log form) →
        source.new ≡ source.old }

    // Where each file was within its share, it is so at every moment.
    ensures bound { H.honest
        → StaysBy (command_of words.now) (H.seen host.old).past (H.seen host.new).past }
{
    match Command::read(alloc, words) {
        Err(_) => Status::Memory,
        Ok(None) => Status::Usage,
        Ok(Some(Command::Collect { every, starts })) => {
            collect_words(alloc, every, starts, words, spawner, clock, host)
        }
        Ok(Some(Command::Convert)) => convert(alloc, source, host),
        Ok(Some(Command::Health)) => health(alloc, source, host),
        Ok(Some(Command::Log(form))) => log(alloc, form, host),
        Ok(Some(Command::New(plan))) => new(alloc, plan, host),
        Ok(Some(Command::Query)) => query(alloc, words, host),
        Ok(Some(Command::Receive)) => receive(alloc, host, link),
        Ok(Some(Command::Run)) => run(alloc, source, host),
        Ok(Some(Command::Send)) => send(alloc, host, link),
    }
}
