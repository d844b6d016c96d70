ghost use Rattle.std.specs.Prelude.{◌≡◌, MatchOption};
ghost use Rattle.serde_json.specs.Data.{no_items, item};
ghost use Rattle.serde_json.specs.Events.{items_len};
ghost use Rattle.json_data.specs.Nodes.{items_at, entries};

use crate::element::Element;
use crate::spot::{Spot, behind};
use crate::texts::Texts;

/// What is left of an array's elements.
#[derive(Clone, Copy, Drop)]
pub struct Elements<'t, 'a> {
    left: usize,
    texts: &'t Texts<'a>,
    // From the next one's first node on.
    nodes: &'t [Spot],
}

impl<'t, 'a> Elements<'t, 'a> {
    ghost use Rattle.json_data.specs.View.{view, items_view};

    pub(crate) fn first(left: usize, texts: &'t Texts<'a>, nodes: &'t [Spot]) -> Elements<'t, 'a>
        ensures { items_view result ≡ items_at left (entries texts.now nodes.now) }
    {
        Elements { left, texts, nodes }
    }

    /// How many are left.
    #[tactic(auto, using(crate::proofs::Values::items_counted))]
    pub fn len(&self) -> usize
        ensures { result ≡ items_len (items_view self.now) }
    {
        self.left
    }

    /// The next one, which is then no longer left.
    pub fn next(&mut self) -> Option<Element<'t, 'a>>
        ensures { MatchOption result
            ((items_view self.old ≡ no_items) × (items_view self.new ≡ no_items))
            (λ e. items_view self.old ≡ item (view e) (items_view self.new)) }
    {
        if self.left == 0 {
            return None;
        }
        let nodes = self.nodes;
        self.left -= 1;
        self.nodes = behind(self.texts, nodes);
        Some(Element::first(self.texts, nodes))
    }
}
