//! What refusals mean and what to do: one sentence a kind.

use event_json::{DocFaultKind, SitesFault};
use item_spellings::ScanFault;
use recall_outcomes::CommandRefusal;
use recall_text::LineRefusal;
use site_core::Refusal;
use std::alloc::{AllocError, Global};

/// The sentences of refusals, a line for each, of which one with the sentence of the one before it has none.
pub(crate) fn sentences(alloc: Global, whys: &[CommandRefusal]) -> Result<String, AllocError> {
    let mut text = String::new(alloc);
    let mut last = "";
    for why in whys {
        let sentence = why_sentence(why);
        if sentence != last {
            text.push_str(sentence)?;
            text.push_str("\n")?;
        }
        last = sentence;
    }
    Ok(text)
}

/// What a refusal means and what to do: a sentence without a full stop, which is the same for each refusal of its kind.
pub(crate) fn why_sentence(why: &CommandRefusal) -> &'static str {
    match why {
        CommandRefusal::Line(refused) => line_sentence(refused.why),
        CommandRefusal::NoWorld => "fewer than two sites are listed: list two or more",
        CommandRefusal::Exists(_) => {
            "there is a file of this site, or a list of sites, already: use another folder, or remove the files if they are left of a `recall init` or `recall copy` that crashed"
        }
        CommandRefusal::NoSite(_) => {
            "the folder's list has no site of this name: look at its file `sites`, and at the order of the command's words"
        }
        CommandRefusal::BadEpc => {
            "the text is empty, or has a space, a control character or more than 512 bytes: write an EPC as a URN or a link; add `--key` where it is the key that is printed of it"
        }
        CommandRefusal::BadKey => {
            "the text is no key as it is printed of an item: quote it whole, as `sgtin`, a GTIN of 14 digits with its check digit and the serial number, or `sscc` and 18 digits, with one space between"
        }
        CommandRefusal::BadScan(fault) => scan_sentence(*fault),
        CommandRefusal::BadRecall => {
            "a recall is written as a site's name, `#` and a number: `recall status` lists the recalls"
        }
        CommandRefusal::UnknownRecall => "`recall status` lists the recalls that sites began",
        CommandRefusal::Step(why) => step_sentence(why),
    }
}

/// What it means that a scanned text spells no item.
fn scan_sentence(fault: ScanFault) -> &'static str {
    match fault {
        ScanFault::NoElements => {
            "the text is no list of GS1 element strings, in brackets or as a scanner gives them: scan it again; behind a value of no fixed length stands an FNC1, the byte 29"
        }
        ScanFault::Differing => {
            "an application identifier that names the item stands twice, with different values: scan one label alone"
        }
        ScanFault::TwoItems => {
            "the text has an SSCC (00) and a GTIN (01) with a serial number (21), which name two items: give the elements of one of them"
        }
        ScanFault::NoItem => {
            "the text has neither an SSCC (00) nor a GTIN (01): scan the code that has one of them"
        }
        ScanFault::NoSerial => {
            "the GTIN (01) has neither a serial number (21) nor a lot (10), so it names no single item: scan the code that has one of them, or find its items by `recall items`"
        }
        ScanFault::CheckDigit => {
            "the last digit of the GTIN (01) or of the SSCC (00) isn't its check digit, so a digit is wrong: scan it again, or compare it with the label"
        }
        ScanFault::BadSerial => {
            "the serial number (21) has more than 20 characters, or one that the standard has no place for: scan it again"
        }
        ScanFault::BadLot => {
            "the lot (10) has more than 20 characters, or one that the standard has no place for: scan it again"
        }
    }
}

/// What it means that a line of a list of sites is refused.
fn line_sentence(why: LineRefusal) -> &'static str {
    match why {
        LineRefusal::BadLine => {
            "the line is neither a `site` line, nor empty, nor a comment: correct it; a byte order mark at the file's front counts as a part of the first line"
        }
        LineRefusal::BadSite(fault) => site_sentence(fault),
    }
}

/// What it means that a site isn't added.
fn site_sentence(fault: SitesFault) -> &'static str {
    match fault {
        SitesFault::NoMemory => "memory ran out, which is never a refusal: report it",
        SitesFault::BadName => {
            "the name of a site hasn't 1 to 16 characters of `A-Z a-z 0-9 _ -`: correct it"
        }
        SitesFault::NameTaken => "two sites have one name: give one of them another name",
        SitesFault::TooMany => {
            "the site is the 17th, or has a 17th address: a list has at most 16 sites, and a site at most 16 addresses"
        }
        SitesFault::BadAddress => {
            "an address has a control character or more than 512 bytes: correct it"
        }
        SitesFault::AddressTaken => {
            "an address stands twice, or at two sites: a text stands for one site"
        }
    }
}

/// What it means that a step is refused.
fn step_sentence(why: &Refusal) -> &'static str {
    match why {
        Refusal::NoMemory => "memory ran out, which is never a refusal: report it",
        Refusal::Blocked { .. } => {
            "the event would lead an item that is quarantined here on to a place where it isn't: hold the goods; if they have left, the guide says what to do with documents that come late"
        }
        Refusal::IdTaken { .. } => {
            "another event with this `eventID` was captured, and its content differs: find out which is right; a corrected event needs an `eventID` of its own"
        }
        Refusal::UnknownItem => {
            "no event of this site names the item, and it isn't quarantined there: check its text (`--key` takes a printed key, `--scan` what a scanner gives), capture the site's documents, or start at a site that has it"
        }
        Refusal::NotMine => {
            "the frame is for another site, which no command brings about: report it"
        }
        Refusal::NumbersSpent => {
            "a recall or a message would get a number past 2^62: begin a new folder"
        }
        Refusal::Doc(fault) => kind_sentence(fault.kind),
    }
}

/// What it means that a document is refused.
fn kind_sentence(kind: DocFaultKind) -> &'static str {
    match kind {
        DocFaultKind::Syntax => {
            "the document is no JSON in UTF-8, or is nested more than 127 deep: send JSON text alone, without a byte order mark and not compressed"
        }
        DocFaultKind::NotDocument => {
            "the document is neither an `EPCISDocument` with an `eventList` nor one event: wrap the events in an `EPCISDocument`, or have `recall convert` make one of an `EPCISQueryDocument` and others"
        }
        DocFaultKind::TooManyEvents => "the document has more than 1,000 events: split it",
        DocFaultKind::NoType => "the event's `type` is none of the standard's five: name the type",
        DocFaultKind::Missing => "a member that has to be there is absent: add it",
        DocFaultKind::WrongShape => {
            "a member is of another JSON type, or an id or a destination has a space, a control character or more than 512 bytes: correct it"
        }
        DocFaultKind::Time => "the time is no instant: write it as `2024-05-01T08:00:00Z`",
        DocFaultKind::Offset => {
            "the offset isn't a sign, `00` to `14`, a colon and `00` to `59`: write it as `+02:00`"
        }
        DocFaultKind::Action => "`action` is none of `ADD`, `OBSERVE`, `DELETE`: correct it",
        DocFaultKind::BadEpc => {
            "a member of an EPC list, or a `parentID`, is no EPC text: correct it"
        }
        DocFaultKind::TooManyEpcs => {
            "a list of the event has more than 1,000 members: split the event"
        }
        DocFaultKind::Quantities => {
            "the event has a quantity list that isn't empty: goods without serial numbers aren't traced, and leaving them out silently could lose some"
        }
        DocFaultKind::ErrorDeclared => {
            "the event has an `errorDeclaration`, and corrections aren't traced: send the corrected event with a new `eventID`"
        }
        DocFaultKind::HalfTransformation => {
            "the transformation has no inputs or no outputs, and no `transformationID`: give both, or an id that joins the halves"
        }
    }
}
