//! What is read of an agent's file, over crashes and restarts, and how many guests sit.
ghost use Rattle.std.specs.Prelude.{◌≡◌, ◌≤◌, ℕ, List, length};
ghost use Rattle.agent_service.specs.Keeping.{GoesOnBy, HasCome};
ghost use Rattle.agent_service.specs.Services.{Guests, Table, Tells, TurnByTurn, first_table, most_seats};
ghost use Rattle.agent_state.specs.Stored.{IsReadAs};
ghost use Rattle.fenced_agent.specs.Agents.{FencedItems};
ghost use Rattle.fenced_agent.specs.Agents.{FencedHoldings};

use wan_edge::Fleet;

/// An image is read as one thing alone: so what the next start holds is determined by what a crash has left.
pub fn an_image_is_read_as_one_thing()
    ensures { (image : List ℕ) (a b : FencedHoldings)
        → IsReadAs image a
        → IsReadAs image b
        → a ≡ b }
{}

/// Whatever a crash leaves of an agent that held this, the next start holds what the rule of terms makes of it by
/// some commands: its floor is no lower, and it holds no less of any item: to its controllers it is a switch that keeps what it holds.
pub fn a_restart_goes_on_by_the_agent_rule()
    ensures { (before now : FencedHoldings) (image : List ℕ)
        → HasCome before image
        → IsReadAs image now
        → GoesOnBy before now }
{}

/// However the turns of a service follow each other, no more guests sit at once than there are seats.
pub fn no_more_sit_than_there_are_seats<F: Fleet>()
    ensures { (tells : Tells F.Guest) (items : FencedItems) (before : Guests F.Guest)
        (course : List (Table F.Guest)) (now : Table F.Guest)
        → TurnByTurn tells (first_table items before) course now
        → length now.guests ≤ most_seats }
{}
