//! What the logs of tasks say of the calls that were made, and whether any logs are sound.
ghost use Rattle.theorem_uses.specs.Logs.{AtomicLogsShow, BrokenLogsShow, ChosenShow, EntriesShow, LanesShow};
ghost use Rattle.theorem_uses.specs.Logs.{RepliesShow, SoundLogsShow};

use board_live::{Posted, RecordLaw};
use cell_contract::Family;

/// An entry tells of one call, with the reply that its wish and what it saw have; lanes that
/// have worked tell of all calls.
pub fn logs_show<V: RecordLaw, F: Family<Posted<V>>>()
    ensures replies { RepliesShow V }
    ensures chosen { ChosenShow V }
    ensures entries { EntriesShow ⟦<F as Family<Posted<V>>>⟧ V.obeys }
    ensures lanes { LanesShow ⟦<F as Family<Posted<V>>>⟧ V.obeys }
    ensures atomic { AtomicLogsShow ⟦<F as Family<Posted<V>>>⟧ V.obeys }
{}

/// Sound logs are in order and have their origins, and of others the first entry that hasn't is named.
pub fn origins_show<V: Copy + Eq>()
    ensures sound { SoundLogsShow V.eq }
    ensures broken { BrokenLogsShow V.eq }
{}
