//! What is done with a document where it is asked for.

ghost use Rattle.std.specs.Prelude.{◌≡◌, IfOk, map};
ghost use Rattle.serde_json.specs.View.{view};
ghost use Rattle.document_convert.specs.Converted.{if_asked, in_light_parts};
ghost use Rattle.document_convert.specs.DeclaredErrors.{document_with_errors_kept};
ghost use Rattle.document_convert.specs.LightParts.{is_light_document};
ghost use Rattle.document_convert.specs.Linked.{document_with_links};
ghost use Rattle.document_convert.specs.Lotted.{document_with_lots};
ghost use Rattle.document_convert.specs.Placed.{document_with_places};

use crate::declared_errors::document_with_errors_kept;
use crate::document_parts::{alone, in_parts};
use crate::linked::document_with_links;
use crate::lotted::document_with_lots;
use crate::placed::document_with_places;
use event_json::Sites;
use serde_json::Value;
use std::alloc::{AllocError, Global};

/// A document with the events that were declared to be errors, or as it is.
pub(crate) fn kept_if(alloc: Global, document: Value, errors: bool) -> Result<Value, AllocError>
    ensures { IfOk result
        (λ d. view d ≡ if_asked errors document_with_errors_kept (view document)) }
{
    if errors {
        document_with_errors_kept(alloc, document)
    } else {
        Ok(document)
    }
}

/// A document with its units as links, or as it is.
pub(crate) fn linked_if(alloc: Global, document: Value, links: bool) -> Result<Value, AllocError>
    ensures { IfOk result (λ d. view d ≡ if_asked links document_with_links (view document)) }
{
    if links {
        document_with_links(alloc, document)
    } else {
        Ok(document)
    }
}

/// A document with its destinations as addresses, or as it is.
pub(crate) fn placed_if(
    alloc: Global,
    document: Value,
    sites: &Sites,
    places: bool,
) -> Result<Value, AllocError>
    ensures { IfOk result
        (λ d. view d ≡ if_asked places (document_with_places sites.now) (view document)) }
{
    if places {
        document_with_places(alloc, sites, document)
    } else {
        Ok(document)
    }
}

/// A document with its lots, or as it is.
pub(crate) fn lotted_if(alloc: Global, document: Value, lots: bool) -> Result<Value, AllocError>
    ensures { IfOk result (λ d. view d ≡ if_asked lots document_with_lots (view document)) }
{
    if lots {
        document_with_lots(alloc, document)
    } else {
        Ok(document)
    }
}

/// A document in parts where they repeat little, or as it is.
pub(crate) fn parts_if(
    alloc: Global,
    document: Value,
    light: bool,
) -> Result<Vec<Value>, AllocError>
    requires { light ≡ is_light_document (view document) }
    ensures { IfOk result (λ found. map view found.items ≡ in_light_parts (view document)) }
{
    if light {
        in_parts(alloc, document)
    } else {
        alone(alloc, document)
    }
}
