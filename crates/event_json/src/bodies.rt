//! What an event says of its items, its copies and comparisons.
ghost use Rattle.std.specs.Prelude.{◌≡◌, IfOk};
ghost use Rattle.event_json.specs.Checks.{action_named};

use crate::copies::copy_id;
use crate::sequences::Sequence;
use crate::site_numbers::SiteNo;
use crate::texts::PlainText;
use epc_core::Epc;
use std::alloc::{AllocError, Global};

/// What is said of the children of an aggregation (GS1 EPCIS 2.0, section 7.4.3).
#[derive(Clone, Copy, Debug, PartialEq, Eq)]
pub enum Action {
    /// They were put into the parent.
    Add,
    /// They were seen in it.
    Observe,
    /// They were taken out of it.
    Delete,
}

impl Action {
    /// The action that is written so.
    #[tactic(auto, unfolding(crate::specs::Checks::action_named))]
    pub(crate) fn named(text: &str) -> Option<Action>
        ensures { result ≡ action_named text.now }
    {
        if text == "ADD" {
            Some(Action::Add)
        } else if text == "OBSERVE" {
            Some(Action::Observe)
        } else if text == "DELETE" {
            Some(Action::Delete)
        } else {
            None
        }
    }
}

/// What an event says of its items.
#[derive(Debug, Drop)]
pub enum Body {
    /// The items were seen.
    Note {
        items: Sequence<Epc>,
    },
    /// The items were shipped to each of the traced sites and of the outside destinations.
    Ship {
        items: Sequence<Epc>,
        sites: Sequence<SiteNo>,
        outside: Sequence<PlainText>,
    },
    /// The outputs were made from the inputs.
    Make {
        id: Option<PlainText>,
        ins: Sequence<Epc>,
        outs: Sequence<Epc>,
    },
    /// The children were put into the parent, seen in it, or taken out of it.
    Pack {
        action: Action,
        parent: Option<Epc>,
        children: Sequence<Epc>,
    },
}

/// An equal item, where there is one.
fn copy_parent(alloc: Global, parent: &Option<Epc>) -> Result<Option<Epc>, AllocError>
    ensures { IfOk result (λ copy. copy ≡ parent.now) }
{
    match parent {
        Some(item) => Ok(Some(item.copy(alloc)?)),
        None => Ok(None),
    }
}

impl Body {
    /// An equal body.
    pub fn copy(&self, alloc: Global) -> Result<Body, AllocError>
        ensures { IfOk result (λ b. b ≡ self.now) }
    {
        match self {
            Body::Note { items } => Ok(Body::Note {
                items: items.copy(alloc)?,
            }),
            Body::Ship {
                items,
                sites,
                outside,
            } => Ok(Body::Ship {
                items: items.copy(alloc)?,
                sites: sites.copy(alloc)?,
                outside: outside.copy(alloc)?,
            }),
            Body::Make { id, ins, outs } => Ok(Body::Make {
                id: copy_id(alloc, id)?,
                ins: ins.copy(alloc)?,
                outs: outs.copy(alloc)?,
            }),
            Body::Pack {
                action,
                parent,
                children,
            } => Ok(Body::Pack {
                action: *action,
                parent: copy_parent(alloc, parent)?,
                children: children.copy(alloc)?,
            }),
        }
    }
}

/// Two bodies are equal where they say the same, with their lists in the same order.
impl PartialEq for Body {
    ghost use Rattle.std.specs.Cmp as Cmp;
    ghost use Rattle.event_json.specs.Contents.{same_body, body_equiv};

    ghost eq = { same_body };

    ghost laws = { Cmp.partial_equiv_from_equiv body_equiv };

    #[tactic(auto, unfolding(crate::specs::Contents::same_body))]
    fn eq(&self, other: &Body) -> bool {
        match (self, other) {
            (Body::Note { items }, Body::Note { items: others }) => items == others,
            (
                Body::Ship {
                    items,
                    sites,
                    outside,
                },
                Body::Ship {
                    items: items2,
                    sites: sites2,
                    outside: outside2,
                },
            ) => sites == sites2 && outside == outside2 && items == items2,
            (
                Body::Make { id, ins, outs },
                Body::Make {
                    id: id2,
                    ins: ins2,
                    outs: outs2,
                },
            ) => id == id2 && outs == outs2 && ins == ins2,
            (
                Body::Pack {
                    action,
                    parent,
                    children,
                },
                Body::Pack {
                    action: action2,
                    parent: parent2,
                    children: children2,
                },
            ) => action == action2 && parent == parent2 && children == children2,
            _ => false,
        }
    }
}

impl Eq for Body {
    ghost use Rattle.event_json.specs.Contents.{body_equiv};

    ghost laws = { body_equiv };
}
