//! What a command line asks for.

use crate::convert_commands::ConvertFiles;
use crate::lint_commands::LintFiles;
use crate::pack_commands::PackFiles;
use crate::plan_commands::PlanCommand;
use folder_commands::{RunTerms, WordKind};
use item_spellings::Spelled;
use outcome_forms::Form;
use recall_outcomes::Ways;

/// What a command line asks for.
#[derive(Debug, Drop)]
pub(crate) enum Asked<'a> {
    /// A script from the standard input.
    Sim,
    /// Something of the sites' files, on these terms.
    Files(FileCommand<'a>, Terms),
    /// Several documents are captured at a site, or several recalls started.
    Batch(Batch<'a>),
    /// Documents of files are looked through.
    Lint(LintFiles<'a>),
    /// It is asked for the events by which sites close their packed gaps.
    Packs(PackFiles<'a>),
    /// Something is planned by the records of all sites, and then done.
    Plan(PlanCommand<'a>),
    /// Documents of files are converted into such as are captured.
    Convert(ConvertFiles<'a>),
    /// Help, or the version, which is an answer.
    Help(String),
    /// A bad command line, with what is wrong with it.
    Mistake(String),
}

/// On which terms a command on the sites' files is done.
#[derive(Clone, Copy, Debug)]
pub(crate) struct Terms {
    /// How what it comes to is printed.
    pub(crate) form: Form,
    /// For how many seconds it waits for a site's file that another program has open.
    pub(crate) wait: u64,
    /// How many bytes a document, or a line of a file of lines, has at most.
    pub(crate) most: u64,
}

/// What a site of a folder does one after another: the documents that it captures, or the items whose recall it starts,
/// of several words, or of the lines or the events of files.
#[derive(Debug, Drop)]
pub(crate) struct Batch<'a> {
    pub(crate) folder: &'a str,
    pub(crate) site: &'a str,
    pub(crate) words: Vec<&'a str>,
    /// What each of the words is.
    pub(crate) kind: WordKind,
    pub(crate) terms: Terms,
}

/// A command on the sites' files in a folder.
#[derive(Debug, Drop)]
pub(crate) enum FileCommand<'a> {
    /// A file is made for each site of a list.
    Init {
        folder: &'a str,
        list: &'a str,
    },
    /// The records of all sites are copied to another folder.
    Copy {
        folder: &'a str,
        to: &'a str,
    },
    /// The document of one file is captured at a site.
    Capture {
        folder: &'a str,
        site: &'a str,
        file: &'a str,
    },
    /// A recall of an item is started at a site, or it is asked what its start would do.
    Start {
        folder: &'a str,
        site: &'a str,
        item: Spelled<'a>,
        dry: bool,
    },
    /// All sites run on these terms, for 1 to 1,000,000 turns.
    Run {
        folder: &'a str,
        terms: RunTerms,
    },
    /// A recall is reported.
    Report {
        folder: &'a str,
        recall: &'a str,
        ways: Ways,
        /// Whether the events behind the steps are told.
        events: bool,
    },
    /// An item at a site is traced to where it went, or back to where it came from.
    Trace {
        folder: &'a str,
        site: &'a str,
        item: Spelled<'a>,
        back: bool,
        ways: Ways,
        /// Whether the events behind the steps are told.
        events: bool,
    },
    /// An item at a site and all that lies in it are traced to where they went.
    TraceContents {
        folder: &'a str,
        site: &'a str,
        item: Spelled<'a>,
        ways: Ways,
    },
    /// It is asked how all recalls stand, and perhaps for a status that tells that one is open.
    Recalls {
        folder: &'a str,
        coded: bool,
    },
    /// It is asked how one recall stands.
    Recall {
        folder: &'a str,
        recall: &'a str,
        coded: bool,
    },
    /// A site is asked for the items that it knows, of which the key contains a text.
    Items {
        folder: &'a str,
        site: &'a str,
        text: &'a str,
    },
    /// A site is asked for what lies in an item that it knows, and of which the key contains a text.
    Inside {
        folder: &'a str,
        site: &'a str,
        item: Spelled<'a>,
        text: &'a str,
    },
    /// All sites are audited, and perhaps for a status that tells that a recall is open.
    Audit {
        folder: &'a str,
        /// Whether the records may be copies that were taken one after another, of which ended recalls alone are told.
        ended: bool,
        coded: bool,
    },
    /// It is asked what each site captured, and from when to when.
    Coverage {
        folder: &'a str,
    },
    /// It is asked for the gaps of what the sites captured, and perhaps for a status that tells that there are any.
    Gaps {
        folder: &'a str,
        /// Whether containers are listed, too, that never came from where they were packed.
        all: bool,
        coded: bool,
    },
    /// It is asked what a recall misses, and perhaps for a status that tells that something of it isn't quarantined.
    Missed {
        folder: &'a str,
        recall: &'a str,
        coded: bool,
    },
}
