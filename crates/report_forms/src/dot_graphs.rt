//! A report and a trace as a picture for Graphviz, in its language DOT: the sites as boxes, in them the items, and an
//! edge for each step.

ghost use Rattle.std.specs.Prelude.{IfOk, string_bytes};
ghost use Rattle.report_forms.specs.Dot.{IsPicture};

use crate::accounts::{Account, Part, Title, Way};
use crate::pictures::Picture;
use epc_core::Epc;
use event_json::{SiteNo, Sites};
use recall_text::telling::{ended_word, name_of, recall_text};
use report_core::OutsideShipment;
use std::alloc::{AllocError, Global};
use trace_core::Pair;

/// The picture of a report or a trace, in which each text of others stands in quotes.
pub fn dot_graph(alloc: Global, sites: &Sites, account: &Account<'_>) -> Result<String, AllocError>
    // Not covered: which nodes and edges there are: tests/forms.sh compares them with the JSON.
    ensures { IfOk result (λ t. IsPicture (string_bytes t)) }
{
    let mut picture = Picture::new(alloc);
    picture.draw("digraph recall {\n  label=")?;
    picture.quote(alloc, title_of(alloc, sites, account.title())?.as_str())?;
    picture.draw(";\n  rankdir=LR;\n  node [shape=box];\n")?;
    draw_sites(alloc, &mut picture, sites, account)?;
    draw_root(alloc, &mut picture, sites, account.root())?;
    draw_edges(alloc, &mut picture, sites, account)?;
    draw_outsides(alloc, &mut picture, sites, account.outside())?;
    draw_origins(alloc, &mut picture, sites, account.origins())?;
    picture.draw("}\n")?;
    Ok(picture.text)
}

/// The title: the recall and whether it has ended, or which trace it is.
fn title_of(alloc: Global, sites: &Sites, title: Title) -> Result<String, AllocError> {
    match title {
        Title::Recall { recall, ended } => {
            let recall = recall_text(alloc, sites, recall)?;
            let word = ended_word(ended);
            format!(in alloc; "recall {recall} {word}")
        }
        Title::Forward => String::from_str(alloc, "trace forward"),
        Title::Back => String::from_str(alloc, "trace back"),
    }
}

/// Draws each site, with the nodes of the pairs there.
fn draw_sites(
    alloc: Global,
    picture: &mut Picture,
    sites: &Sites,
    account: &Account<'_>,
) -> Result<(), AllocError> {
    for number in 0..sites.len() {
        let Some(site) = SiteNo::of(number) else {
            return Ok(());
        };
        let name = name_of(sites, site);
        let title = format!(in alloc; "cluster {name}")?;
        picture.draw("  subgraph ")?;
        picture.quote(alloc, title.as_str())?;
        picture.draw(" {\n    label=")?;
        picture.quote(alloc, name)?;
        picture.draw(";\n")?;
        draw_nodes(alloc, picture, sites, account, site)?;
        picture.draw("  }\n")?;
    }
    Ok(())
}

/// Draws the nodes of the pairs at a site.
fn draw_nodes(
    alloc: Global,
    picture: &mut Picture,
    sites: &Sites,
    account: &Account<'_>,
    site: SiteNo,
) -> Result<(), AllocError> {
    for place in 0..account.len() {
        if let Some(part) = account.part(place) {
            draw_node(alloc, picture, sites, part.pair, site)?;
        }
    }
    Ok(())
}

/// Draws the node of a pair, with its item, where it is at this site.
fn draw_node(
    alloc: Global,
    picture: &mut Picture,
    sites: &Sites,
    pair: &Pair,
    site: SiteNo,
) -> Result<(), AllocError> {
    if pair.site != site {
        return Ok(());
    }
    let key = pair.item.key(alloc)?;
    picture.draw("    ")?;
    name_pair(alloc, picture, sites, pair.site, &pair.item)?;
    picture.draw(" [label=")?;
    picture.quote(alloc, key.as_str())?;
    picture.draw("];\n")
}

/// Marks the item that was asked for or recalled.
fn draw_root(
    alloc: Global,
    picture: &mut Picture,
    sites: &Sites,
    root: &Pair,
) -> Result<(), AllocError> {
    picture.draw("  ")?;
    name_pair(alloc, picture, sites, root.site, &root.item)?;
    picture.draw(" [penwidth=3];\n")
}

/// Marks the pairs that no pair is related to.
fn draw_origins(
    alloc: Global,
    picture: &mut Picture,
    sites: &Sites,
    origins: &[Pair],
) -> Result<(), AllocError> {
    for origin in origins {
        picture.draw("  ")?;
        name_pair(alloc, picture, sites, origin.site, &origin.item)?;
        picture.draw(" [peripheries=2];\n")?;
    }
    Ok(())
}

/// Draws an edge between each pair and the one beside it on its trail.
fn draw_edges(
    alloc: Global,
    picture: &mut Picture,
    sites: &Sites,
    account: &Account<'_>,
) -> Result<(), AllocError> {
    for place in 0..account.len() {
        if let Some(part) = account.part(place) {
            draw_edge(alloc, picture, sites, &part)?;
        }
    }
    Ok(())
}

/// Draws the edge of a pair, where there is one: to it, or from it to the next one.
fn draw_edge(
    alloc: Global,
    picture: &mut Picture,
    sites: &Sites,
    part: &Part<'_>,
) -> Result<(), AllocError> {
    let Some(beside) = part.way.beside() else {
        return Ok(());
    };
    match &part.way {
        Way::To(_) => draw_step(alloc, picture, sites, part.pair, beside),
        _ => draw_step(alloc, picture, sites, beside, part.pair),
    }
}

/// Draws an edge from a pair to another.
fn draw_step(
    alloc: Global,
    picture: &mut Picture,
    sites: &Sites,
    from: &Pair,
    to: &Pair,
) -> Result<(), AllocError> {
    picture.draw("  ")?;
    name_pair(alloc, picture, sites, from.site, &from.item)?;
    picture.draw(" -> ")?;
    name_pair(alloc, picture, sites, to.site, &to.item)?;
    picture.draw(";\n")
}

/// Draws the place of each shipment out of the traced sites, and an edge to it.
fn draw_outsides(
    alloc: Global,
    picture: &mut Picture,
    sites: &Sites,
    outside: &[OutsideShipment],
) -> Result<(), AllocError> {
    for shipment in outside {
        let place = shipment.destination.as_str();
        let node = format!(in alloc; "> {place}")?;
        picture.draw("  ")?;
        picture.quote(alloc, node.as_str())?;
        picture.draw(" [label=")?;
        picture.quote(alloc, place)?;
        picture.draw(", style=dashed];\n  ")?;
        name_pair(alloc, picture, sites, shipment.site, &shipment.item)?;
        picture.draw(" -> ")?;
        picture.quote(alloc, node.as_str())?;
        picture.draw(";\n")?;
    }
    Ok(())
}

/// Adds the name of a pair's node: its site, a space, and its item. No site's name begins with `>`, as places outside do.
fn name_pair(
    alloc: Global,
    picture: &mut Picture,
    sites: &Sites,
    site: SiteNo,
    item: &Epc,
) -> Result<(), AllocError> {
    let name = name_of(sites, site);
    let key = item.key(alloc)?;
    let node = format!(in alloc; "{name} {key}")?;
    picture.quote(alloc, node.as_str())
}
