use meta_command_line::Manual;
use meta_program::COMMANDS;

const HELP: &str = "\
Answers by the declarations of an instruction set: those of Cranelift's shared instructions and settings, or those of a file.

Usage: ciderlater [-d FILE] COMMAND         what the command answers
       ciderlater check [--rust] [--] FILE  ok and how much is declared, or what is wrong first, with its line;
                                            the lines with names that rustc refuses are told, and with --rust refused;
                                            FILE is standard input if it is -, and may be any word after --

Commands:
  tables          the tables as text
  tables --version N
                  the same in an earlier version, 1 or 2, where the tables fit it
  types           the constants of types as text
  settings        the settings as Rust source
  instructions    the formats, opcodes and data of instructions as Rust source
  builder         the builder of instructions as Rust source
  query           an answer to each line of standard input
  explain         the answers of query, and why types are refused;
                  and which types an instruction takes, which instructions take types, and which instructions there are
  recheck         same, different or refused, as what the text of tables in standard input reads as;
                  then the answers of those tables to the lines after the line `// Queries.`
  synth N         a line on the tables of the declarations that are made from a number
  verify          ok, or which line of the list in standard input is the first wrong one, and why
  verify --why    the same, and of a refused line which part doesn't fit, what it has, and what it has to be
  asm short       the list in standard input with the types left out that the others tell
  asm explicit    such a list with all types
  asm short --why, asm explicit --why
                  the same; a refused line is told as verify --why tells it
  flags           the settings, set and told by name in standard input
  audit           whether the tables in standard input mean what is declared
  check           ok, and how many instructions, formats, type sets, constraints, and settings and presets there are
  describe        a file that declares the same, in one form

A file declares an instruction set: `type Int: ints 8..64`, `kind number: imm \"i64\"`, `format Binary: value, value`,
`inst add: Binary(x: Int, y: Int) -> a: Int`; and groups of settings: `group NAME`, and below it `bool NAME = true`, `num NAME = 16`,
`enum NAME(VALUE, VALUE)` and `preset NAME(NAME, NAME)`. Lines that begin with `///` document what stands below them.

Options:
  -d, --declarations FILE  the declarations of this file, in place of the shared ones; before the command; also -d=FILE
  -h, --help               prints this
  -V, --version            prints the version

Status: 0 done, 1 declarations refused, 2 usage, 3 read fault, 4 write fault, 5 out of memory, 6 input or file too long,
        7 a line of the list is wrong, the tables don't fit the version, or no file declares the same, 8 the file can't be read";

/// What the program says of itself.
pub(crate) const MANUAL: Manual = Manual {
    name: "ciderlater",
    version: "0.1.0",
    help: HELP,
    commands: COMMANDS,
};
