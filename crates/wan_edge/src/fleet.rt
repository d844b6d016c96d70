ghost use Rattle.std.specs.Prelude.{◌≡◌, ◌+◌, ◌<◌, ◌≤◌, [], ◌∷◌, ◌++◌, true, false, None, Some, IfOk, IfSome, OnErr, OnOk};
ghost use Rattle.std.specs.Option.{option_map};
ghost use Rattle.wan_edge.specs.Fleets.{FleetTrace, GivesGuest, GivesPort, GuestsStay, PortsStay, WaitsFor, marked, with_one, without};
ghost use Rattle.wan_edge.specs.Streams.{Rose};

use crate::{Failed, Guest, Port, Waited};

/// The switches that a controller can reach, by number, and the controllers that come to an agent.
///
/// Who is given a port or a guest gives it back: the place for it is made when it is given, so that
/// giving it back takes no memory.
pub trait Fleet {
    type Port: Port;

    type Guest: Guest;

    /// All that it tells.
    ghost told: { Self → FleetTrace Self.Port Self.Guest };

    /// Opens the connection to the switch of this name, which goes by this number from then on. Where it is
    /// told what waits, the port is the one that waits there under this name. Where it isn't, the port is new:
    /// no call of it has failed, and nothing has gone over it.
    fn port(&mut self, switch: u32, name: &str) -> Result<Self::Port, Failed>
        ensures given { IfOk result
            (λ p. GivesPort Self.Port.told (told self.old).waiting switch p
            (told self.new).waiting) }
        ensures own { OnOk result (IfSome (told self.old).waiting
            (λ _. (told self.old).named switch ≡ Some name.now)) }
        ensures none { OnErr result (IfSome (told self.old).waiting
            (λ ports. (told self.old).named switch ≡ Some name.now → ports switch ≡ None)) }
        ensures still_waiting { OnErr result ((told self.new).waiting ≡ (told self.old).waiting) }
        ensures taken { OnOk result ((told self.new).kept ≡ without (told self.old).kept switch) }
        ensures left { OnErr result ((told self.new).kept ≡ (told self.old).kept) }
        ensures place { OnOk result
            ((told self.new).lent ≡ marked (told self.old).lent switch true) }
        ensures no_place { OnErr result ((told self.new).lent ≡ (told self.old).lent) }
        ensures asked { OnOk result
            ((told self.new).named ≡ with_one (told self.old).named switch name.now) }
        ensures unasked { OnErr result ((told self.new).named ≡ (told self.old).named) }
        ensures guests { GuestsStay (told self.old) (told self.new) }
        ensures cause { OnErr result (Rose (told self.old).faults (told self.new).faults) }
        ensures count { (told self.old).faults ≤ (told self.new).faults };

    /// Takes the port of a switch back.
    fn keep(&mut self, switch: u32, port: Self::Port)
        requires { (told self.old).lent switch ≡ true }
        ensures ready { (told self.new).waiting
            ≡ option_map (λ ports. with_one ports switch port) (told self.old).waiting }
        ensures back { (told self.new).kept ≡ with_one (told self.old).kept switch port }
        ensures place { (told self.new).lent ≡ marked (told self.old).lent switch false }
        ensures names { (told self.new).named ≡ (told self.old).named }
        ensures guests { GuestsStay (told self.old) (told self.new) }
        ensures count { (told self.old).faults ≤ (told self.new).faults };

    /// Waits until a controller comes, or something is there of one of the guests that sit, and says which;
    /// or says that no more will come and nobody sits. Nothing is given, read or written by it, and it may
    /// wait for ever.
    fn wait(&mut self, seated: &[Self::Guest]) -> Result<Waited, Failed>
        ensures woken { IfOk result (λ woken. WaitsFor (told self.old).coming seated.now woken) }
        ensures guests { GuestsStay (told self.old) (told self.new) }
        ensures ports { PortsStay (told self.old) (told self.new) }
        ensures cause { OnErr result (Rose (told self.old).faults (told self.new).faults) }
        ensures count { (told self.old).faults ≤ (told self.new).faults };

    /// Waits for the next controller that comes, or says that no more will come. Where it isn't told who
    /// comes, the guest is new: no call of it has failed, and nothing was read of it or written to it.
    fn guest(&mut self) -> Result<Option<Self::Guest>, Failed>
        ensures given { IfOk result
            (λ found. IfSome found
            (λ g. GivesGuest Self.Guest.Source.told Self.Guest.Sink.told (told self.old).coming g
            (told self.new).coming)) }
        ensures no_more { result ≡ Ok None → IfSome (told self.old).coming (λ guests. guests ≡ []) }
        ensures still_none { result ≡ Ok None → (told self.new).coming ≡ (told self.old).coming }
        ensures still_coming { OnErr result ((told self.new).coming ≡ (told self.old).coming) }
        ensures place { IfOk result
            (λ found. IfSome found (λ _. (told self.new).visiting ≡ (told self.old).visiting + 1)) }
        ensures no_place { result ≡ Ok None → (told self.new).visiting ≡ (told self.old).visiting }
        ensures no_visit { OnErr result ((told self.new).visiting ≡ (told self.old).visiting) }
        ensures others { (told self.new).served ≡ (told self.old).served }
        ensures ports { PortsStay (told self.old) (told self.new) }
        ensures cause { OnErr result (Rose (told self.old).faults (told self.new).faults) }
        ensures count { (told self.old).faults ≤ (told self.new).faults };

    /// Takes a guest back.
    fn keep_guest(&mut self, guest: Self::Guest)
        requires { 0 < (told self.old).visiting }
        ensures back { (told self.new).served ≡ (told self.old).served ++ guest ∷ [] }
        ensures place { (told self.new).visiting + 1 ≡ (told self.old).visiting }
        ensures others { (told self.new).coming ≡ (told self.old).coming }
        ensures ports { PortsStay (told self.old) (told self.new) }
        ensures count { (told self.old).faults ≤ (told self.new).faults };
}
