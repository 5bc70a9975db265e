//! The texts of help.

/// What the program does, in a sentence.
pub(crate) const ABOUT: &str =
    "Traces recalled products through a supply chain: sites capture GS1 EPCIS 2.0 events, and a recall of an item finds all that was made from it or shipped on.";

/// The program's version, that of the sites' files which it makes, and the toolchain and the logic that it is proved
/// with.
pub(crate) const VERSION: &str =
    "0.2.0 (site files of version 2, written for rattle-kit-13f logic dac8208d650f15bf)";

/// What is wrong where two forms are asked for.
pub(crate) const TWO_FORMS: &str = "\
error: only one of '--json', '--csv', '--csv-guarded' and '--dot' can be given

For more information, try '--help'.
";

/// What is wrong where events are asked for in a picture, or of what lies in an item, which tell none.
pub(crate) const UNTOLD_EVENTS: &str = "\
error: '--events' is for text, '--json', '--csv' and '--csv-guarded', and neither for '--dot' nor for '--contents'

For more information, try '--help'.
";

/// What is wrong where options are there that don't go together.
pub(crate) const AT_ODDS: &str = "\
error: '--contents' traces to where items went, without '--back', and '--all' lists of all sites, without a recall

For more information, try '--help'.
";

/// What is wrong where it is said how an item is spelled, and none is given.
pub(crate) const IDLE_SPELLING: &str = "\
error: '--key' and '--scan' tell how the item of '--in' is given, and there is no '--in'

For more information, try '--help'.
";

/// What is wrong where both the lines and the events of a file are to be documents.
pub(crate) const LINES_AND_EVENTS: &str = "\
error: only one of '--lines' and '--each' can be given

For more information, try '--help'.
";

/// What is wrong where a start of several recalls is to be dry.
pub(crate) const ONE_DRY_START: &str = "\
error: '--dry-run' takes one EPC, and no '--from'

For more information, try '--help'.
";

/// What is wrong where a start that is planned is asked for with something else.
pub(crate) const NO_PLAN: &str = "\
error: '--contents' and '--each-site' take one EPC and '--gaps' one recall, each without the others and without
'--from' and '--dry-run', and '--gaps' without '--key' and '--scan'

For more information, try '--help'.
";

/// What is wrong where an item is said to be spelled in two ways.
pub(crate) const TWO_SPELLINGS: &str = "\
error: only one of '--key' and '--scan' can be given

For more information, try '--help'.
";

/// The page behind the list of commands.
pub(crate) const PAGE: &str = "\
A folder holds a supply chain: the file `sites` lists its sites, and each site keeps its record in a file
of its own, `<name>.db`. A captured document and a `start` are kept whole or not at all, also where the
machine crashes. `run` is kept step by step, and a crash in `init` or `copy` may leave some of the files.

  recall init chain sites.txt                    a file for each site of the list
  recall capture chain dairy monday.json         a site captures documents of events
  recall start chain dairy <epc>                 a site starts a recall of an item
  recall run chain                               all sites run, and recalls go from site to site
  recall report chain dairy#1                    what is quarantined, how it came there, what left
  recall audit chain                             whether all is consistent; lists all recalls
  recall copy chain friday                       a backup of all sites, in a folder that is there

Questions that change nothing:

  recall trace chain dairy <epc>                 where an item went, without a recall of it
  recall trace chain dairy <epc> --back          where it came from
  recall status chain                            how each recall stands, and what it waits for
  recall items chain dairy 400                   the items of a site, found by a part of their text
  recall items chain dairy --in <epc>            what lies in an item, by the packings of all sites
  recall gaps chain                              what sites shipped on that others packed, unseen by recalls
  recall gaps chain dairy#1                      what that recall misses because of it
  recall packs chain --site dairy                captures the packings that close these gaps
  recall coverage chain                          what each site captured, and from when to when
  recall lint sites.txt monday.json              all that is wrong in documents, before they are captured
  recall convert monday.json                     documents as others write them, as `capture --lines` takes them

A list of sites has a line for each: `site <name> <address>..`, where an address is a destination of
shipments that stands for the site. An item is an EPC, as urn:epc:id:sgtin:0614141.112345.400, a Digital
Link or any other text without spaces. A recall is named by its site and its number there, as dairy#1.

Status: 0 done, 1 something was refused, 2 bad command line, 3 a fault, named on the error stream,
4 records disagree (`audit`, `run`), 5 what was asked for: with `--exit-code` that a recall is open (`status`,
`run`, `audit`) or that there are gaps, with `--unless-gaps` that nothing was sent because of them.

`recall <command> --help` says more of a command, with an example.";

pub(crate) const SIM_ABOUT: &str =
    "Runs a script from standard input and prints what each line comes to";

pub(crate) const SIM_EXAMPLE: &str = "\
Lines of a script:
  site <name> <address>..           a site, and the destination texts that stand for it
  capture <site> <json>             captures an EPCIS document, or one bare event, at a site
  reach <site> <epc>                the pairs of site and item that an item at a site reaches
  recall <site> <epc>               starts a recall of an item at a site
  send <site> <number>              sends a message of a site
  signal <site> <sender> <number>   sends a site's signal of a message
  deliver <place>                   delivers the frame that was sent at a place, from 1
  stop <site> old|new               the site crashes within its next step, and keeps that record
  reopen <site>                     opens a site that crashed
  pump <rounds>                     sends, delivers and signals all that waits, 0 to 1000 times
  quarantine <site>#<number>        what is quarantined under a recall, and whether it has ended
  # ..                              a comment

Example:
  printf 'site A a\\nsite B b\\nreach A x\\n' | recall sim

Status: 0 done, 1 a line was refused, 3 a fault.";

pub(crate) const INIT_ABOUT: &str = "Makes a file for each site of a list";

pub(crate) const INIT_EXAMPLE: &str = "\
The list has a line for each site: `site <name> <address>..`. A name has 1 to 16 letters, digits, `_` or
`-`, and there are 2 to 16 sites. Empty lines and lines that begin with `#` are ignored. Nothing is made
where a line is refused or a site has a file already: `refused Exists <name>`.

Example:
  recall init chain examples/dairy/sites

Status: 0 done, 1 refused, 3 a fault.";

pub(crate) const CAPTURE_ABOUT: &str = "Captures EPCIS documents, or bare events, at a site";

pub(crate) const CAPTURE_EXAMPLE: &str = "\
Each document is captured whole or not at all. `captured <new> known <known> skipped <skipped>` says how
many of its events are new, were captured before, or are of a type that isn't traced.

Of several files, or with `--lines`, the site's file is opened once. Each document is kept, and its line
printed, before the next one is read; at the line's end stands the file, and with `--lines` the number of
its line. A document that is refused doesn't stop the others. A last line has the totals.
With `--each` each event of a document is captured as a document of its own, so that one which is refused
keeps out no other; at the line's end stand the file and `event` with the event's number.

Examples:
  recall capture chain dairy examples/dairy/dairy.json
  recall capture chain dairy monday/*.json
  recall capture chain dairy late.json --each
  zcat events.ndjson.gz | recall capture chain dairy - --lines

Status: 0 done, 1 refused, 3 a fault.";

pub(crate) const START_ABOUT: &str = "Starts a recall of an item at a site that has it";

pub(crate) const START_EXAMPLE: &str = "\
The item and all that the site made from it are quarantined there. `recall <recall> new <items> messages
<count> open` has the recall's name, how many items are quarantined, and how many messages wait for other
sites; `ended` stands in place of `open` where there are none. A start can't be undone, and a quarantine
is never lifted: `recall trace` tells what it would find, and `--dry-run` what it would do at the site.

Of several EPCs each has a recall of its own, and the site's file is opened once. Each recall is kept, and its
line printed with the EPC behind it, before the next one is started. With `--from` the EPCs are the lines of
a file (`-` is the standard input), and behind each line of the answer stand the file and the line's number.
An item that is refused doesn't stop the others. A last line has the totals.
With `--key` the item is given as this program prints it, with `--scan` as a scanner gives it: a list of GS1
element strings with a GTIN (01) and a serial number (21) or a lot (10), or an SSCC (00), in brackets or not.

With `--contents` each item that lies in the given one has a recall, too, by the packings of all sites. With
`--gaps` a recall is given: each item at the site that it misses and that no recall holds has a recall, and
before that the packings are captured that tell the site where those lie that it knows nothing of. With
`--each-site` the item, as a lot, has a recall at each other site, too, of which an event names it.

Examples:
  recall start chain dairy urn:epc:id:sgtin:0614141.112345.400 --dry-run
  recall start chain dairy urn:epc:id:sgtin:0614141.112345.400
  recall start chain dairy --from lot-7.txt
  recall start chain dairy --key 'sgtin 10614141123459 400'
  recall start chain dairy --scan '(01)10614141123459(21)400'

Status: 0 done, 1 refused, 3 a fault.";

pub(crate) const RUN_ABOUT: &str =
    "Runs all sites, each in a thread of its own, so that recalls go from site to site";

pub(crate) const RUN_EXAMPLE: &str = "\
Each site sends what waits for other sites, takes what they send, and signals what it has dealt with. Then
each recall that a site began is printed: `<recall> ended` or `<recall> open`. One that is open continues in
the next run; with `--until-ended` there is one after another, until each recall has ended or nothing moves any
more. Where the sites' records are inconsistent nothing is run: `misfit <condition> <site>`.

`missed <n> at <site>` says that open recalls reach items which that site sent on in containers that others
packed. Once a recall has come to the site it can't capture those packings any more, so let it capture them
before: with `--unless-gaps` nothing is sent then, and `withheld` is printed.

Examples:
  recall run chain --until-ended
  recall run chain --unless-gaps --exit-code

Status: 0 done, 3 a fault, 4 a misfit; 5 with `--unless-gaps` where items are missed, and with `--exit-code`
while a recall is open.";

pub(crate) const REPORT_ABOUT: &str =
    "Reports a recall: what is quarantined, how it came there, what left the sites";

pub(crate) const REPORT_EXAMPLE: &str = "\
A recall is named by its site and its number there, as dairy#1; `recall status` lists all recalls. Behind
each quarantined item stand the steps that lead to it from the recalled one; with `--brief` it has the last
step alone, in its own line. With `--events` stand behind each step the events that relate its two items:
`by <number> <eventID> <time> shipped`, or `made`, which are two where they are two parts of a transformation;
and behind each shipment that left the first event that shows it, `shipped in <item>` where it left in that.

With `--csv` each quarantined item and each shipment that left is a row of a table for a spreadsheet, with
the step before it, and with `--events` the first event of that; with `--csv-guarded` a cell that a spreadsheet
might take for a formula has an apostrophe before it. With `--dot` the spread is a picture for Graphviz. A
refusal is printed as text.

Examples:
  recall report chain dairy#1
  recall report chain dairy#1 --brief
  recall report chain dairy#1 --events
  recall report chain dairy#1 --csv --events > recall.csv
  recall report chain dairy#1 --dot | dot -Tsvg > recall.svg

Status: 0 done, 1 refused (UnknownRecall: the site began none of this number), 3 a fault.";

pub(crate) const AUDIT_ABOUT: &str =
    "Checks that the sites' records are consistent, and each recall's quarantine";

pub(crate) const AUDIT_EXAMPLE: &str = "\
Prints for each recall `open <recall>`, or, once it has ended, `equal <recall> pairs <count>` or
`differs <recall> <site> <item> missing` (or `extra`). Where the records are inconsistent it prints
`misfit <condition> <site>` alone; with `--ended` they need not be consistent.

Examples:
  recall audit chain
  recall audit chain --exit-code
  recall audit copies --ended

Status: 0 done, 3 a fault, 4 a misfit or a difference, and with `--exit-code` 5 while a recall is open.";

pub(crate) const TRACE_ABOUT: &str =
    "Traces an item to where it went, or with `--back` to where it came from, without a recall";

pub(crate) const TRACE_EXAMPLE: &str = "\
Prints `pair <site> <item>` for each item at a site that was made from the one asked for or shipped on, with
the steps that lead to it, `outside` for each shipment of them that left the traced sites, and a total. With
`--back`: each item at a site that went into the one asked for, the steps from it, and `origin` for those
that come from nowhere among the traced sites. With `--brief` each has one step, in its own line, and with
`--events` stand behind each step and each shipment that left its events, as in `recall report`. Nothing is
recalled, and no file is changed.

With `--csv` it is a table for a spreadsheet, with a row for each item at a site and one for each shipment
that left or each origin, with `--events` their first events, too, and with `--csv-guarded` the same with an
apostrophe before what a spreadsheet might take for a formula; with `--dot` a picture for Graphviz. A refusal
is printed as text.

With `--contents` the items are traced with it that lie in it, by the packings of all sites: of a pallet, say, its
cartons, each at the same site.

With `--key` the item is given as this program prints it, with `--scan` as a scanner gives it.

Examples:
  recall trace chain dairy urn:epc:id:sgtin:0614141.112345.400
  recall trace chain dairy --key 'sgtin 10614141123459 400'
  recall trace chain dairy --scan '(01)10614141123459(21)400'
  recall trace chain shop https://id.gs1.org/01/09521321000179/21/1 --back --brief
  recall trace chain shop https://id.gs1.org/01/09521321000179/21/1 --back --events
  recall trace chain dairy urn:epc:id:sgtin:0614141.112345.400 --dot | dot -Tsvg > trace.svg

Status: 0 done, 1 refused (UnknownItem: no event of the site names the item), 3 a fault.";

pub(crate) const STATUS_ABOUT: &str =
    "Tells how each recall stands; of one recall, which site owes what";

pub(crate) const STATUS_EXAMPLE: &str = "\
Prints for each recall `<recall> open` or `<recall> ended`, its root, how many items at sites are
quarantined, and how many messages wait. Of one recall also `site` for each site that holds an item of it,
waits or is engaged, and `waiting` for each message: `untold` where its site hasn't taken it yet, and `told`
where its signal is outstanding. An open recall goes on in the next `recall run`.

Examples:
  recall status chain
  recall status chain dairy#1
  recall status chain --exit-code || recall run chain --until-ended --exit-code

Status: 0 done, 1 refused (UnknownRecall: the site began none of this number), 3 a fault, and with
`--exit-code` 5 while one of these recalls is open.";

pub(crate) const ITEMS_ABOUT: &str =
    "Lists the items that a site knows, found by a part of their text";

pub(crate) const ITEMS_EXAMPLE: &str = "\
Prints `item <site> <item> events <count>` for each item that contains the text as it is printed: an end of a
serial number finds it. The count is of the site's events that name it. Without a text all items are listed.

With `--in` these are the items that lie in another one which the site knows, at any depth: that any site put
there, whenever, whether or not they were taken out again. A recall of a container holds none of them, so
start one of each.

Examples:
  recall items chain dairy 400
  recall items chain dairy 'sgtin 00614141123452'
  recall items chain dairy --in 'sscc 106141412345678908' --key

Status: 0 done, 1 refused, 3 a fault. Refusals: NoSite (the folder lists no such site), and with `--in`
BadEpc, BadKey, BadScan (the text is no item) and UnknownItem (the site doesn't know it).";

pub(crate) const COVERAGE_ABOUT: &str = "Tells what each site captured, and from when to when";

pub(crate) const COVERAGE_EXAMPLE: &str = "\
Prints `site <name> events <n> items <n> first <time> last <time>` for each site: how many events it captured
and how many items it knows, and when the first and the last of the events happened, in UTC; `-` where there
is none. A site whose last event lies far behind the others' may lack documents, and a recall finds nothing
in those.

Example:
  recall coverage chain

Status: 0 done, 3 a fault.";

pub(crate) const COPY_ABOUT: &str =
    "Copies the records of all sites to another folder: a backup of one moment";

pub(crate) const COPY_EXAMPLE: &str = "\
The other folder has to be there, and to have no list and no file of a site: `refused Exists <name>`. All
sites' files are open together meanwhile, and each is read and checked as by any command. What is recorded
stays as it is. A file of the copy is made anew from its site's record, and the list is written last, so a
copy that was stopped in the middle has none: remove its files, and begin again.

Example:
  mkdir friday && recall copy chain friday

Status: 0 done, 1 refused, 3 a fault.";

pub(crate) const PACKS_ABOUT: &str = "Captures the packings by which sites close their packed gaps";

pub(crate) const PACKS_EXAMPLE: &str = "\
A packed gap is closed where the site that shipped the container on captures what another one packed into it.
Each site captures each such event under its own `eventID`, site by site, in the order in which who packed
captured them; a line tells what came of each, and behind those of a site stand its totals. An event that is
refused stays a gap, and hinders no other: where a recall has come by, it is `Blocked`, and `recall start
--gaps` goes on. With `--dry-run` nothing is captured: each event is printed as an EPCIS document in a line of
its own, as `recall capture --lines` takes it.

Examples:
  recall packs chain
  recall packs chain --site dairy --dry-run >packings.ndjson
  recall gaps chain

Status: 0 done, 1 refused, 3 a fault.";

pub(crate) const GAPS_ABOUT: &str =
    "Finds what sites tell nothing of, so that a recall would miss it: goods in others' containers";

pub(crate) const GAPS_EXAMPLE: &str = "\
A site that ships a container on which another one packed has no event that tells what lies in it, so that a
recall of that finds nothing past this site. What was packed is known from the site that the container came
from, over however many sites. Prints, by site and item,
  gap packed <site> <container> by <site> items <count>    shipped on, by one that didn't pack these items
  gap used <site> <container> items <count>                went into a transformation, and these items not
  gap unseen <site> <item> from <site>                     was shipped there, and no event there names it
  gap lot <site> <lot>                                     a recall holds this lot elsewhere, and none here
  gap unlinked <site> <container> by <site> items <count>  with `--all`: it never came from where it was packed
and then `total packed <count> items <count> used <count> unseen <count>`, with ` lot <count>` where there are
lots. `recall packs` closes packed gaps: each site captures the packings (AggregationEvent, ADD) of others; do so
before a recall reaches them. `recall trace` and `recall report` note what of their items is `missed`. With
`--json` a packed gap has the times of its first packing and of its last shipment.

With a recall prints what that one misses, by site and item, and what left the traced sites unseen by it,
  gap missed <site> <item> [held by <recall>]    it came there by such a container; another recall holds it
  gap left <site> <item> <destination>           it so left the traced sites
and then `total missed <count> held <count> left <count>`.

Examples:
  recall gaps chain --all
  recall gaps chain dairy#1 --exit-code --json

Status: 0 done, 1 refused, 3 a fault, and with `--exit-code` 5 where there are gaps, or where what a recall
misses isn't held, or left.";

pub(crate) const LINT_ABOUT: &str =
    "Tells all that is wrong or strange in documents, before they are captured";

pub(crate) const LINT_EXAMPLE: &str = "\
Needs the list of sites alone, and writes nothing. `fault <kind> event <number> field <field> <file>` for each
faulty member of an event, of which the first is what a capture is refused for; a document without a fault is
one that is read. `warn` for what is read and probably not meant: ShipsNowhere (shipping, departing or
consigning without a destination), Outside (a destination that is no traced site), OtherSpelling (one with the
GLN of this site), NotShipped (a destination of an event that isn't an ObjectEvent), NothingPacked (ADD without
children), Skipped (an event of a type that isn't traced), NoEventID (captured again it counts again), NearMiss
(begins as an SGTIN or an SSCC and breaks its rules); and with `--site <name>` OtherPlace (its readPoint or
bizLocation is an address of another site than the one that is to capture it). Then a total.

Examples:
  recall lint examples/dairy/sites examples/dairy/dairy.json
  recall lint examples/dairy/sites examples/dairy/dairy.json --site plant
  recall lint chain/sites monday/*.json --json

Status: 0 no fault, 1 a fault, or the list is refused, 3 a fault of a file, named on the error stream.";

pub(crate) const CONVERT_ABOUT: &str =
    "Turns documents as others write them into documents that are captured, one a line";

pub(crate) const CONVERT_EXAMPLE: &str = "\
Writes a document a line for `recall capture --lines`, in order. A file is one JSON value, or has one in each line; a
value is an EPCISDocument, with its events in `eventList` or in `event`, an EPCISQueryDocument, an event, or an
array of these. The type of an event may stand in `@type` or `isA`. A byte order mark is passed over. With `--lots`
each lot of a list of quantities stands among the items of the list, by its one spelling,
https://id.gs1.org/01/<gtin>/10/<lot>, and so does each lot that an event names among its items; an event of which an
element has no lot stays as it is. A lot that the `ilmd` of an event names leads to the units that the event brings
forth, by an event behind it. With `--links` a unit that is given by a Digital Link on any host, or by element strings
in brackets, becomes its link on id.gs1.org. With `--places <sites>` a destination that names a listed site's place in
another spelling becomes this site's address; a list that `recall lint` refuses is refused, and nothing is converted.
With `--keep-errors` an event that was declared to be an error is written without its `errorDeclaration`, with which a
capture refuses it: a recall follows what it says. An event with a list of more than 1,000 items becomes parts, and a
document of more than 1,000 events becomes several, unless these would repeat much.

The error stream tells what is no document, `refused Doc Syntax` or `NotDocument` with the file and the line, and
then an account, as `note: written 1 events 3 links 0 lots 2 derived 1 untied 0 parted 0 errors 0 places 0
places_of_several 0 left 0`, in one line: the documents, their events, events of which a link was written otherwise,
lots among the items, events from a lot to its units, events with too many lots or units and without such an event,
events that became parts, events that were declared to be errors and are kept, events of which a destination became an
address, events with a destination that names the GLN of several listed sites and stayed, and events that still have
quantities, with which a capture refuses them. Ask for `--lots`, `--links` and `--places` from the first capture of a
folder on: an event that was captured without them is another one with them.

Examples:
  recall convert answer-of-a-query.json | recall capture chain dairy - --lines
  recall convert --lots monday/*.json > monday.ndjson
  recall convert --places sites.txt monday.json > monday.ndjson

Status: 0 done, 1 something is no document, or the list of sites is refused, 3 a fault of a file, named on the error
stream.";
