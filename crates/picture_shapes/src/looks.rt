ghost use Rattle.std.specs.Prelude.{◌≡◌, ◌++◌, OnOk};
ghost use Rattle.picture_shapes.specs.Looks.{looks};

use std::alloc::AllocError;

/// The end of the head, with the colours and lines of a picture.
#[tactic(auto, unfolding(crate::specs::Looks::looks), using(std::proofs::Common::append_assoc))]
pub fn push_looks(text: &mut Vec<u8>) -> Result<(), AllocError>
    ensures { OnOk result (text.new.items ≡ text.old.items ++ looks) }
{
    text.extend_from_slice(
        b"\">\n<style>text{font:11px monospace;fill:#222}.g{fill:#fff}.l,.t{stroke:#ddd;fill:none}",
    )?;
    text.extend_from_slice(
        b".s{stroke:#777;stroke-dasharray:2 4;fill:none}.a{fill:#777}.w{fill:#9fc3e8;stroke:#12467a;stroke-width:2}",
    )?;
    text.extend_from_slice(
        b".r{fill:#fff;stroke:#12467a;stroke-width:2}.f{fill:#fff;stroke:#7a4612;stroke-width:2;stroke-dasharray:4 3}",
    )?;
    text.extend_from_slice(
        b".j{stroke:#12467a;fill:none}circle{fill:#222}.n{fill:#fff;font-size:9px;text-anchor:middle}",
    )?;
    text.extend_from_slice(
        b".x{fill:none;stroke:#c00;stroke-width:5}.b{fill:none;stroke:#c00;stroke-width:3;stroke-dasharray:8 4}",
    )?;
    text.extend_from_slice(
        b".z{fill:#c00;font-weight:bold}.p{fill:none;stroke:#c00;stroke-width:2;marker-end:url(#p)}</style>\n",
    )?;
    text.extend_from_slice(
        b"<marker id=\"p\" viewBox=\"0 0 8 8\" refX=\"8\" refY=\"4\" markerWidth=\"5\" markerHeight=\"5\" orient=\"auto\">",
    )?;
    text.extend_from_slice(
        b"<path fill=\"#c00\" d=\"M0 0L8 4L0 8z\"/></marker>\n<rect class=\"g\" width=\"100%\" height=\"100%\"/>\n",
    )
}
