//! A motor that counts.
ghost use Rattle.example_control.specs.Motors.{WasCounted};

use crate::tasks::Motor;

/// A motor that keeps count of its commands, and of those that lie outside both limits.
#[derive(Clone, Copy, Debug, Drop)]
pub struct Counted {
    pub commands: u64,
    pub outside: u64,
}

impl Motor for Counted {
    ghost was_sent = { WasCounted };

    fn send(&mut self, command: u64) {
        self.commands = self.commands.saturating_add(1);
        if !(10..=20).contains(&command) && !(30..=40).contains(&command) {
            self.outside = self.outside.saturating_add(1);
        }
    }
}
