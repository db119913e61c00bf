//! The places that a reason names.
ghost use Rattle.std.specs.Prelude.{◌≡◌, ◌++◌, IfOk, OnOk};
ghost use Rattle.std.specs.List.{flat_map};
ghost use Rattle.fsr_coherent_answers.specs.CoherenceText.{places_in, places_of_link};

use history_coherence::{Incoherence, Link};
use std::alloc::{AllocError, Global};

pub(crate) fn places_in(alloc: Global, reason: &Incoherence) -> Result<Vec<usize>, AllocError>
    ensures { IfOk result (λ places. places.items ≡ places_in reason.now) }
{
    let mut places = Vec::new(alloc);
    match reason {
        Incoherence::Unwritten { read } => places.push(*read)?,
        Incoherence::Ahead { read, write } => {
            places.push(*read)?;
            places.push(*write)?;
        }
        Incoherence::Circle { links } => push_links(&mut places, links.as_slice())?,
    }
    Ok(places)
}

fn push_links(places: &mut Vec<usize>, links: &[Link]) -> Result<(), AllocError>
    ensures { OnOk result (places.new.items ≡ places.old.items ++ flat_map places_of_link links.now) }
{
    for link in links {
        push_link(places, *link)?;
    }
    Ok(())
}

fn push_link(places: &mut Vec<usize>, link: Link) -> Result<(), AllocError>
    ensures { OnOk result (places.new.items ≡ places.old.items ++ places_of_link link) }
{
    places.push(link.earlier)?;
    places.push(link.later)?;
    Ok(())
}
