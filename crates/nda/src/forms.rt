//! What the program says of itself.

/// The forms of the command line.
pub const FORMS: &str = "\
usage: nda COMMAND

  nda new ID [P0 Q0 P1 Q1 P2 Q2]
      makes a database in this folder, as in: nda new 7
  nda collect EVERY STARTS PROGRAM [ARG..]
      runs PROGRAM EVERY ARG.. and stores its text's beats, as in: nda collect 1 1000 ./collector
  nda run
      stores the beats of the text on standard input, up to its last MOMENT: nda run < text
  nda query CHART AFTER BEFORE WINDOW GROUP [WORD..]
      prints a line for each window, as in: nda query system.cpu 1700006400 1700092800 3600 average
  nda health
      stores standard input as the configuration of alarms, as in: nda health < alarms.conf
  nda log text, nda log json
      prints how many events of alarms are not shown, and the last 1,000, as in: nda log text
  nda receive ADDRESS
      waits at ADDRESS for one child and stores copies of its points: nda receive 0.0.0.0:19999
  nda send ADDRESS
      sends copies of the points here to the parent at ADDRESS: nda send parent.example.org:19999
  nda convert
      prints a text's points, a line MOMENT CHART DIMENSION VALUE for each: nda convert < text
  nda --help, nda --version
      prints this, or the version

A database is the files nda.0 to nda.6 of the current folder. ID is below 2^64; of each tier P
items, 1 to 262144, make a segment full, and Q segments, 1 to 1024, are kept. collect starts PROGRAM
again while it ends with 0, STARTS times at most, 1 to 1000; its beats get their moments from the
clock and lie EVERY seconds apart, 1 to 86400. run and collect print STORED and its number for each
beat once it is stored, and answer a QUERY line at its place; receive prints it for the last beat of
each part that came. ADDRESS is a host and a port. AFTER and BEFORE are seconds since 1970; a line
has the GROUP (average, min, max, sum, count or anomaly-rate) of WINDOW seconds of each dimension
whose id or name the WORDs accept. No word begins with -, nor does an ARG: a script can add such
words.";

/// The program's name and version.
pub const VERSION: &str = "nda 0.1.0";
