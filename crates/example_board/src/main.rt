//! Three tasks share a reading and its limits on a board: one sets limits, one publishes, one steers.
#![tactic(auto)]

use board_live::Posted;
use example_control::{Control, Counted, last_of_two, run, two_boards};
use family_four_slot::FourSlotFamily;
use std::io;

/// The registers on which the boards stand. All else is over any family of them.
type Registers = FourSlotFamily<Posted<Control>>;

fn main(rt: HostRuntime) -> io::Result<()> {
    let opening = Control {
        low: 10,
        reading: 15,
        high: 20,
    };
    let motor = Counted {
        commands: 0,
        outside: 0,
    };
    let Ok(Some((_last, motor))) = run::<_, Registers, _>(rt, rt.alloc(), opening, 1_000, motor)
    else {
        return println!(rt; "the control program didn't end as it should, or there was no memory");
    };
    println!(rt;
        "1,000 commands or more: {}, outside their limits: {}",
        1_000 <= motor.commands,
        motor.outside
    )?;
    let Ok(Some(steered)) = two_boards::<Registers>(rt.alloc()) else {
        return println!(rt; "the first board didn't end as it should, or there was no memory");
    };
    let [first, second] = steered;
    println!(rt; "steering by {first}, and by {second} on the next board")?;
    let Ok(Some(last)) = last_of_two::<Registers>(rt.alloc()) else {
        return println!(rt; "the board of two didn't end as it should, or there was no memory");
    };
    println!(rt; "a board of two ends with {}", last.item.reading)
}
