ghost use Rattle.std.specs.Prelude.{◌≡◌, ℕ, List, IsPermutation, IsSorted, vec_len, vec_capacity};
ghost use Rattle.rollout_rules.specs.Release.{in_order_of};
ghost use Rattle.update_scheduler.specs.Candidates.{candidates_of, compared};

use crate::candidate::Candidate;

/// Puts candidates in the order in which they are tried: by rank, and then by item.
pub(crate) fn put_in_order(candidates: &mut Vec<Candidate>)
    ensures order { (rank : ℕ → ℕ) (ns : List ℕ)
        → candidates.old.items ≡ candidates_of rank ns
        → candidates.new.items ≡ candidates_of rank (in_order_of rank ns) }
    ensures len { vec_len candidates.new ≡ vec_len candidates.old }
    ensures capacity { vec_capacity candidates.new ≡ vec_capacity candidates.old }
{
    sort(candidates);
}

fn sort(candidates: &mut Vec<Candidate>)
    ensures permutation { IsPermutation candidates.old.items candidates.new.items }
    ensures sorted { IsSorted compared candidates.new.items }
    ensures len { vec_len candidates.new ≡ vec_len candidates.old }
    ensures capacity { vec_capacity candidates.new ≡ vec_capacity candidates.old }
{
    candidates.sort_unstable();
}
