//! The words that the program is started with.

use dcel_programs::Program;

const DETAILS: &str = "\
Each line is a command or a query, and gets an answer before the next one is read. D is a datum, A,
B and V are vertices, H a half edge, U an edge, F a face, N a number, and .. several or none:

  append D         triangle D D D   setup A B        extend A B       line H B
  close H          outside H B      insert B F       half H B         split H B
  flip U           legalize N U..   swap A B         put V D          clear
  isolate V H..    remesh H.. / U.. / F..            strip H..        cleanup U.. / F..
  remove V         degenerate V

  counts           words            hull             out V            origin H
  between A B      get V            check

The manual page dcel_run(1), which is docs/LINES.md, says what they do and are answered.";

/// What the program takes.
pub const PROGRAM: Program<'static, ()> = Program {
    name: "dcel_run",
    about: "Answers lines about a half-edge mesh",
    input: "The lines; without it, or with -, standard input",
    switches: &[],
    choices: &[],
    details: DETAILS,
    output: None,
};
