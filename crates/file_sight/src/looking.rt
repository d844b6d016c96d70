ghost use Rattle.std.specs.Prelude.{◌≡◌, ◌≢◌, ◌<◌, ◌^◌, bytes_eq, take, IfErr, IfOk};
ghost use Rattle.file_sight.specs.Sights.{Looks, LooksBehind, ReadsAll, front_length};

use crate::{Sight, Unseen};
use std::alloc::Global;
use wan_edge::{Nums8, read_all};

/// How many of the first bytes are compared.
const FRONT: usize = 35;

/// All the bytes of a file that another may write meanwhile, where there are no more than `limit`, read in order
/// from the first to the end. It is read once more then: where the first 35 bytes aren't the same any longer,
/// that is told in place of the bytes.
pub fn look<W: Sight>(alloc: Global, limit: usize, file: &mut W) -> Result<Nums8, Unseen>
    requires { limit < 2 ^ 63 }
    ensures { Looks W.told limit file.old result file.new }
{
    match read_file(alloc, limit, file) {
        Ok(bytes) => look_again(alloc, limit, bytes, file),
        Err(why) => Err(why),
    }
}

// The bytes that were read, where the front of the file is still as it is in them.
fn look_again<W: Sight>(
    alloc: Global,
    limit: usize,
    bytes: Nums8,
    file: &mut W,
) -> Result<Nums8, Unseen>
    requires { limit < 2 ^ 63 }
    ensures { LooksBehind W.told limit file.old bytes result file.new }
{
    match read_file(alloc, limit, file) {
        Ok(later) => kept_where_still(bytes, &later),
        Err(why) => {
            drop(bytes);
            Err(why)
        }
    }
}

// Reads all bytes, from the first on.
fn read_file<W: Sight>(alloc: Global, limit: usize, file: &mut W) -> Result<Nums8, Unseen>
    requires { limit < 2 ^ 63 }
    ensures { ReadsAll W.told limit file.old result file.new }
{
    file.rewind();
    match read_all(alloc, file, limit) {
        Ok(bytes) => Ok(bytes),
        Err(why) => Err(Unseen::from(why)),
    }
}

#[tactic(auto, using(crate::proofs::Fronts::same_front, crate::proofs::Fronts::other_front))]
// These bytes, where later ones have the same front.
fn kept_where_still(bytes: Nums8, later: &Nums8) -> Result<Nums8, Unseen>
    ensures ok { IfOk result
        (λ kept. (kept ≡ bytes)
        × (take front_length later.now ≡ take front_length bytes)) }
    ensures err { IfErr result
        (λ why. (why ≡ Unseen.InUse)
        × (take front_length later.now ≢ take front_length bytes)) }
{
    let same = have_one_front(later.as_slice(), bytes.as_slice());
    if same {
        Ok(bytes)
    } else {
        drop(bytes);
        Err(Unseen::InUse)
    }
}

fn have_one_front(one: &[u8], other: &[u8]) -> bool
    ensures { result ≡ bytes_eq (take front_length one.now) (take front_length other.now) }
{
    front_of(one) == front_of(other)
}

// The first bytes; all where there are fewer.
fn front_of(bytes: &[u8]) -> &[u8]
    ensures { result.now ≡ take front_length bytes.now }
{
    if FRONT < bytes.len() {
        &bytes[..FRONT]
    } else {
        bytes
    }
}
