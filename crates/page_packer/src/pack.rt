//! The nodes of a light subtree, one behind the other.
ghost use Rattle.std.specs.Prelude.{◌≡◌, ◌<◌, ◌≤◌, ◌+◌, ◌^◌, length, OnOk};
ghost use Rattle.page_packer.specs.Layout.{packed_under};
ghost use Rattle.page_packer.specs.Boxes.{branches_of, weight_in, IsSoundLink};
ghost use Rattle.page_packer.specs.Work.{Adds};

use crate::boxes::{Branch, Link, payload_bytes};
use crate::work::{Stood, Work, close};
use key_types::NoMemory;

/// Appends the nodes of branches by ascending byte, each behind its children.
pub fn pack(link: &Link, start: u64, work: &mut Work) -> Result<(), NoMemory>
    requires sound { IsSoundLink link.now }
    requires light { weight_in link.now ≤ 4096 }
    requires room { start + length work.old.out + weight_in link.now < 2 ^ 62 }
    ensures ok { OnOk result (Adds work.old work.new (packed_under (branches_of link.now) (start + length work.old.out))) }
    ensures short { OnOk result (length work.new.out ≤ length work.old.out + weight_in link.now) }
{
    match link {
        Link::End => Ok(()),
        Link::Last(branch) => {
            let branch: &Branch = branch;
            pack(&branch.before, start, work)?;
            let base = work.stood.len();
            pack(&branch.children, start, work)?;
            let position = start + work.out.len() as u64;
            close(payload_bytes(&branch.payload), base, position, work)?;
            work.stood.push(Stood {
                byte: branch.byte,
                position,
            })?;
            Ok(())
        }
    }
}
