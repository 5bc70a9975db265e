//! The identifiers of recalls and messages.
use event_json::SiteNo;
use std::marker::Model;

/// A recall: the site that began it, and that site's number for it, from 1.
///
/// Recalls are ordered by site, then number.
#[derive(Clone, Copy, Debug, PartialEq, Eq, PartialOrd, Ord)]
pub struct RecallId {
    /// The site that began the recall.
    pub site: SiteNo,
    /// The number that this site gave it.
    pub number: u64,
}

impl Model for RecallId {
    ghost use Rattle.frame_core.specs.Numbers.{Recall, coded_recall};

    ghost Value = { Recall };

    ghost coded = { coded_recall };

    ghost view = { λ n. record { site = n.site; number = n.number } };

    ghost inverse = { λ n. record { site = n.site; number = n.number } };
}

/// A message of a recall: the site that sends it, and that site's number for it, from 1.
///
/// Messages are ordered by site, then number.
#[derive(Clone, Copy, Debug, PartialEq, Eq, PartialOrd, Ord)]
pub struct MsgId {
    /// The site that sends the message.
    pub site: SiteNo,
    /// The number that this site gave it.
    pub number: u64,
}

impl Model for MsgId {
    ghost use Rattle.frame_core.specs.Numbers.{Message, coded_message};

    ghost Value = { Message };

    ghost coded = { coded_message };

    ghost view = { λ n. record { site = n.site; number = n.number } };

    ghost inverse = { λ n. record { site = n.site; number = n.number } };
}
