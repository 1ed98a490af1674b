//! A caller of `age_core`.

ghost use Rattle.std.specs.Prelude.{◌≡◌, ◌++◌, [], OnOk};
ghost use Rattle.age_format.specs.Outside.{Wrote};
ghost use Rattle.age_format.specs.Stanza.{IsArbitraryString};
ghost use Rattle.age_core.specs.Connecting.{held_by, sink_of, source_of};
ghost use Rattle.age_send.specs.Sending.{done, second_roll, sent_text, stanza_with};

use age_core::outside::{Sink, Source};
use age_core::plugin::{Connection, PhaseError};
use rand_core::Rng;

/// Sends a phase of one command, without arguments and body: its stanza and `done` are written, each behind
/// its grease, and the source and what was read stay as they are. At a refusal the phase is abandoned.
pub fn send_command<R: Source, W: Sink, G: Rng>(
    connection: &mut Connection<R, W>,
    rng: &mut G,
    command: &str,
) -> Result<(), PhaseError>
    requires { IsArbitraryString command.now }
    ensures written { let stream = G.stream rng.old in OnOk result (Wrote W.got W.faults W.plan (sink_of connection.old) (sink_of connection.new)
        (sent_text (stanza_with command.now [] []) stream ++ sent_text done (second_roll stream).1)) }
    ensures source { source_of connection.new ≡ source_of connection.old }
    ensures held { held_by connection.new ≡ held_by connection.old }
{
    let mut phase = connection.unidir_send(rng);
    match phase.send(command, &[], &[]) {
        Ok(()) => phase.finish(),
        Err(error) => {
            phase.abandon();
            Err(error)
        }
    }
}
