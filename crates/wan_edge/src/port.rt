ghost use Rattle.std.specs.Prelude.{◌≡◌, ◌<◌, ◌≤◌, true, length, IfOk, OnErr, OnOk};
ghost use Rattle.wan_edge.specs.Ports.{FailsToHear, FailsToSend, Hears, LooksAt, PortTrace, Sends, Steps};

use crate::Failed;

/// The way to one switch and back: commands are offered, and answers heard.
///
/// A port is honest where its switch moves by the agent rule alone, on commands that were offered, and
/// says of an item no pair of a migration and a number above the one that it holds. It is prompt where
/// it also answers each command once, in order, and gives nothing only where all these answers were
/// given.
///
/// A port knows how long its switch may take to answer. It is ready where bytes came back, and where that
/// time limit has passed since the last offer; then a hear doesn't wait.
pub trait Port {
    /// All that it tells.
    ghost told: { Self → PortTrace };

    /// Sends all the bytes, or fails and sends the first of them.
    fn offer(&mut self, from: &[u8]) -> Result<(), Failed>
        ensures all { OnOk result (Sends from.now (told self.old) (told self.new)) }
        ensures part { OnErr result (FailsToSend from.now (told self.old) (told self.new)) }
        ensures step { Steps (told self.old) (told self.new) };

    /// Takes some of the bytes that came back into the front of `into` and says how many; 0 is nothing
    /// until the time limit had passed. What stands in `into` after them is not said.
    fn hear(&mut self, into: &mut [u8]) -> Result<usize, Failed>
        requires room { 0 < length into.old }
        ensures within { IfOk result (λ n. n ≤ length into.old) }
        ensures given { IfOk result (λ n. Hears n into.new (told self.old) (told self.new)) }
        ensures nothing { OnErr result (FailsToHear (told self.old) (told self.new)) }
        ensures step { Steps (told self.old) (told self.new) };

    /// Whether it is ready now. It waits for nothing, and takes nothing.
    fn is_ready(&mut self) -> bool
        ensures { LooksAt result (told self.old) (told self.new) };

    /// Waits a moment, in which something may come.
    fn rest(&self);

    /// What is prompt is honest.
    ghost prompt_is_honest: { (p : Self)
        → (told p).prompt ≡ true
        → (told p).honest ≡ true };
}
