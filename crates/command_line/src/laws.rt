//! The theorem of the program, as a function with an empty body whose contract is the law.

ghost use Rattle.std.specs.Prelude.{List};
ghost use Rattle.event_json.specs.Sites.{Site};
ghost use Rattle.command_line.specs.Lives.{FoldersComeOut};

use keeper_core::SiteKeeper;

/// Whatever commands the files of a folder's sites saw since they were made, in whatever order, and however each came to its
/// end: with an output, with a fault, or killed. What the sites did is a run of the world, and comes out as the headline
/// says. That each command which ends is acts of single sites, by frames that these gave each other, is the clause `acts`
/// of [`run_command`](crate::run_command).
///
/// Two premises, of what no contract can speak: a site's file that is opened shows what its last keeper left there, or
/// may have left; and a command that is killed had done a beginning of its steps, and of the last one all or nothing.
pub fn folders_come_out<K: SiteKeeper>()
    ensures { (sites : List Site) → FoldersComeOut K.shown K.may sites }
{}
