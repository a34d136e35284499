//! The text of a made log.
ghost use Rattle.std.specs.Prelude.{◌≡◌, ◌++◌, ◌+◌, ◌≤◌, OnOk, IfOk, flat_map};
ghost use Rattle.std.specs.List.{list_any};
ghost use Rattle.limits.specs.declared.TheConstants.{MAX_SESSIONS};
ghost use Rattle.load_maker.specs.Sessions.{calls_within, is_write, line, log_text, most_draws, session_end, session_text, state_within, sync_where};

use crate::call::Call;
use crate::generator::Generator;
use invariants::Seq;
use itoa::Buffer;
use std::alloc::{AllocError, Global};

/// How many numbers a session draws at most.
const MAX_DRAWS: u32 = 4;

/// The number that gives no call and is the last that its session draws.
const NO_CALL: u16 = 3;

/// How many bytes the text of a session has at most: 7 lines of 5 digits, a space, 5 letters and a
/// line feed.
const MAX_SESSION_BYTES: usize = 84;

/// Puts the line of a call in the session with this number at the end of the text.
fn push_line(text: &mut Vec<u8>, session: u32, call: Call) -> Result<(), AllocError>
    ensures { OnOk result (text.new.items ≡ text.old.items ++ line session call) }
{
    let mut digits = Buffer::new();
    text.extend_from_slice(digits.format(session).as_bytes())?;
    text.push(b' ')?;
    text.extend_from_slice(call.word().as_bytes())?;
    text.push(10)?;
    Ok(())
}

/// Puts a line for each call that the session draws at the end of the text. Returns whether one of
/// them writes.
fn push_drawn(
    text: &mut Vec<u8>,
    session: u32,
    generator: &mut Generator,
) -> Result<bool, AllocError>
    ensures lines { OnOk result (text.new.items
        ≡ text.old.items ++ flat_map (line session) (calls_within most_draws generator.old.state)) }
    ensures state { OnOk result (generator.new.state
        ≡ state_within most_draws generator.old.state) }
    ensures wrote { IfOk result (λ wrote. wrote
        ≡ list_any is_write (calls_within most_draws generator.old.state)) }
{
    let mut wrote = false;
    for _ in 0..MAX_DRAWS {
        let draw = generator.draw();
        if draw == NO_CALL {
            return Ok(wrote);
        }
        let call = Call::of_draw(draw);
        push_line(text, session, call)?;
        wrote = wrote | call.is_write();
    }
    Ok(wrote)
}

/// Puts the line of a sync at the end of the text, if the session wrote.
fn push_sync(text: &mut Vec<u8>, session: u32, wrote: bool) -> Result<(), AllocError>
    ensures { OnOk result (text.new.items
        ≡ text.old.items ++ flat_map (line session) (sync_where wrote)) }
{
    if !wrote {
        return Ok(());
    }
    push_line(text, session, Call::Sync)?;
    Ok(())
}

/// Puts the lines of the session with this number at the end of the text.
fn push_session(
    text: &mut Vec<u8>,
    session: u32,
    generator: &mut Generator,
) -> Result<(), AllocError>
    ensures lines { OnOk result (text.new.items
        ≡ text.old.items ++ session_text session generator.old.state) }
    ensures state { OnOk result (generator.new.state ≡ session_end generator.old.state) }
{
    push_line(text, session, Call::Open)?;
    let wrote = push_drawn(text, session, generator)?;
    push_sync(text, session, wrote)?;
    push_line(text, session, Call::Close)?;
    Ok(())
}

/// The text of a log of `n` sessions, from 1 to `MAX_SESSIONS`. It is the same whenever it is made.
/// It consists of lines `NUMBER CALL`, each ended by byte 10. The number is that of the session,
/// counted from 1, and the call is one of `open`, `read`, `write`, `seek`, `sync` and `close`.
///
/// A session opens, makes the calls that its draws give, syncs if it wrote, and closes. It draws at
/// most four numbers. A draw of 0 gives `read`, 1 gives `write` and 2 gives `seek`. A draw of 3
/// gives no call and is the last of its session. The state x of the generator is 1 at first, and
/// goes on from session to session. One draw sets x to (25173 x + 13849) mod 65536 and gives (x /
/// 4096) mod 4, rounded down.
///
/// The only error is that memory runs out.
pub fn make_log(alloc: Global, n: u32) -> Result<Seq<u8>, AllocError>
    requires some { 1 ≤ n }
    requires few { n ≤ MAX_SESSIONS }
    ensures { IfOk result (λ text. text ≡ log_text n) }
{
    let mut text = Vec::with_capacity(alloc, n as usize * MAX_SESSION_BYTES)?;
    let mut generator = Generator::new();
    for k in 0..n {
        push_session(&mut text, k + 1, &mut generator)?;
    }
    Ok(Seq::from_vec(text))
}
