//! What an event does between processes.

ghost use Rattle.std.specs.Prelude.{◌≡◌};
ghost use Rattle.event_rows.specs.Exchanges.{counted_to, earlier};

use dbg_base::{Direction, Pid};
use local_eval::Env;

/// What an event does besides its settings. The count is what the process counts after the event: 1 for its first message to the target, or
/// from the source.
#[derive(Clone, Copy, PartialEq, Eq)]
pub enum Exchange {
    /// Nothing.
    Nothing,
    /// The value was sent to the target.
    Sent {
        target: Pid,
        value: i64,
        count: u32,
    },
    /// The message was received from the source.
    Took {
        source: Pid,
        message: i64,
        count: u32,
    },
}

// Counts the messages up to this one, if the other process exists.
pub(crate) fn put_count(env: &mut Env, exchange: &Exchange)
    ensures { env.new ≡ counted_to exchange.now env.old }
{
    match *exchange {
        Exchange::Nothing => {}
        Exchange::Sent { target, count, .. } => {
            if (target.0 as usize) < env.counts(Direction::Sent).len() {
                env.set_sent(target, count);
            }
        }
        Exchange::Took { source, count, .. } => {
            if (source.0 as usize) < env.counts(Direction::Got).len() {
                env.set_got(source, count);
            }
        }
    }
}

// The exchange with the count before it.
pub(crate) fn before(exchange: &Exchange) -> Exchange
    ensures { result ≡ earlier exchange.now }
{
    match *exchange {
        Exchange::Nothing => Exchange::Nothing,
        Exchange::Sent {
            target,
            value,
            count,
        } => Exchange::Sent {
            target,
            value,
            count: count.saturating_sub(1),
        },
        Exchange::Took {
            source,
            message,
            count,
        } => Exchange::Took {
            source,
            message,
            count: count.saturating_sub(1),
        },
    }
}
