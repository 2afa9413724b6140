//! The texts of `occur --help`.

/// What the program is.
pub const ABOUT: &str =
    "Keeps what grep finds up to date while a script edits files, patterns and options.";

/// The script's commands, for the end of the help.
pub fn commands_help() -> &'static str {
    "\
The script has a command on each line. The lines or patterns that a command counts follow it.
  file NAME COUNT              a new file, of the next COUNT lines
  missing NAME                 a new file that cannot be opened
  close K                      takes file K away
  splice K START REMOVE COUNT  the next COUNT lines in place of REMOVE lines of file K
  patterns COUNT               new patterns, the next COUNT lines
  drop P                       takes pattern P away
  pattern P                    the next line in place of pattern P
  flag LETTER on|off           sets an option of grep that has no argument, but E and F
  context BEFORE AFTER         shows so many lines around selected ones
  context off                  shows no others
  syntax basic|extended|fixed  sets how patterns are read
  show                         asks what grep finds now
  changes                      asks what changed of the lines found, since the last time
  page FIRST COUNT             asks for COUNT of the lines found, from number FIRST on
  version                      asks for the version of occur, and that of scripts
  text on|off                  writes the lines found with their text, or without it

An edit is answered by 'ok' or 'refused CAUSE'; show by grep's output after 'o ', its messages after
'e ' and 'status N'; changes and page by rows for an editor, and 'status N'; version by one line.

Exit status: 0; 1 if a command was refused; 2 after an error.
See the manual page for more: man occur"
}
