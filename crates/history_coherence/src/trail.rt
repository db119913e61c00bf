//! The links from a record on the path back to itself.

ghost use Rattle.std.specs.Prelude.{◌≡◌, ◌++◌, IfOk, OnOk, option_to_list};
ghost use Rattle.history_coherence.specs.inner.Walks.{HasMetOn, IsTrail, IsWalking, link_at};

use crate::coherence::Link;
use crate::edge::{Tables, edge_at, number_at};
use crate::walk::Walk;
use std::alloc::{AllocError, Global};

/// The links that lead from this record along the path to the same one.
pub(crate) fn circle_at(
    alloc: Global,
    tables: &Tables,
    walk: &Walk,
    met: usize,
) -> Result<Vec<Link>, AllocError>
    requires walking { IsWalking tables.now walk.now }
    requires met { HasMetOn tables.now walk.now met }
    ensures { IfOk result (λ v. IsTrail tables.now.keys.items tables.now.earlier.items v.items met met) }
{
    let mut links = Vec::new(alloc);
    let mut i = walk.path.len() - 1;
    push_link(&mut links, tables, walk.cursors.as_slice(), walk.path[i])?;
    'records: while walk.path[i] != met {
        i -= 1;
        push_link(&mut links, tables, walk.cursors.as_slice(), walk.path[i])?;
    }
    Ok(links)
}

/// One more link, which leads to this record.
fn push_link(
    links: &mut Vec<Link>,
    tables: &Tables,
    cursors: &[Option<usize>],
    number: usize,
) -> Result<(), AllocError>
    ensures { OnOk result (links.new.items ≡ links.old.items
        ++ option_to_list (link_at tables.now.keys.items tables.now.earlier.items cursors.now number)) }
{
    if let Some(link) = link_at(tables, cursors, number) {
        links.push(link)?;
    }
    Ok(())
}

fn link_at(tables: &Tables, cursors: &[Option<usize>], number: usize) -> Option<Link>
    ensures { result ≡ link_at tables.now.keys.items tables.now.earlier.items cursors.now number }
{
    let later = number_at(cursors, number)?;
    Some(edge_at(tables, later)?.link)
}
