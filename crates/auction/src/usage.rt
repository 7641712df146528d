//! The pages on how the program is used: of the whole, and of each command.

/// How the program is used: what `auction --help` writes.
pub(crate) const USAGE_PAGE: &str =
    "usage: auction solve [FILE] [--workers K] [--bids N] [--audit ROOM] [--objects M] [--from CERT] [--direct [--seconds T] [--progress] [--large]]
       auction check FILE [CERT] [--objects M] [--large]
       auction hall [FILE] [--objects M] [--large]
       auction mail [SCRIPT]
       auction help [COMMAND] | --help | -h | COMMAND --help | COMMAND -h | --version | -V

solve finds a least-cost assignment of the problem FILE, with prices that show it, or persons who together may take too
few objects.
Without FILE the problem is read from standard input.
K threads do the work of each kind of shard: 0 to 16; 0, as without --workers, solves without threads.
Each shard of the persons makes at most N bids in a phase: 1 to 1000000000000; without --bids 100000000,
or the greatest with --large.
Where they don't suffice, solve gives an assignment and a bound below which none costs.
Each mail keeps a trail of at most ROOM calls, by which the phases are judged: 0 to 1000000; 0, as without --audit,
keeps none. Trails want threads.
With --from the prices begin at those of the certificate CERT, of a problem with as many persons, and as many objects;
without, at 0.
With --direct one search does all, without messages: as right, mostly sooner, and far sooner with more objects than
persons; of several
least assignments it may find another one. It takes the prices of any CERT with one for each object, and no --workers
and no --audit.
Such a solve ends soon after T seconds, 1 to 1000000, where they don't suffice, as it does where bids don't; with
--progress it
reports on standard error once a second how far it has come.

check says whether the claim of the certificate CERT holds of the problem FILE: a least-cost assignment, or that there
is none.
Without CERT the certificate is read from standard input.

hall finds an arc for each person of the problem FILE, no object twice, or persons who together may take too few
objects.
Without FILE the problem is read from standard input.

The problem of a solve, a check or a hall has M objects: 1 to 20000, with --large to 4194304, and no fewer than persons;
without --objects as many as persons.
With --large they take up to 4,194,304 persons and objects, and 268,435,456 arcs; without it 10,000 persons, 20,000
objects and 33,554,432 arcs. With --large a solve wants --direct.

mail makes the calls of SCRIPT on a new mail, and prints the replies.
Without SCRIPT the script is read from standard input.

A name that begins with a hyphen goes after --. Answers go to standard output, sentences on what is wrong to standard
error.

Status 0: an assignment of least cost, a claim that holds, an arc for each person, or all replies; 2: the arguments are no command;
3: there is no assignment, or the claim doesn't hold; 4: a limit ended the search with an assignment and a bound;
5: a file can't be opened or read, or is no problem, no certificate or no script; 6: want of memory or of threads;
7: a guard of the solver was hit; 8: standard output was not written, or not all of it.

Read on: man auction (auction.1), docs/FORMATS.md for problems, certificates and scripts, docs/PLANNING.md for tables and plans.";

/// What `auction solve --help` writes.
pub(crate) const SOLVE_PAGE: &str = "usage: auction solve [FILE] [OPTION ..]

Finds a least-cost assignment of the problem FILE, with prices that show it, or persons who together may take too few
objects.
Without FILE the problem is read from standard input. A name that begins with a hyphen goes after --.

  --direct        solve by one direct search, without messages: as right, mostly sooner; of several least assignments it
  may find another
  --seconds T     with --direct: end soon after T seconds, 1 to 1000000, with an assignment and a bound
  --progress      with --direct: report on standard error once a second how far the search has come
  --large         with --direct: take up to 4,194,304 persons and objects, and 268,435,456 arcs
  --bids N        at most N bids of each shard of the persons in a phase, 1 to 1000000000000; without it 100000000,
  or the greatest with --large
  --objects M     the problem has M objects, 1 to 20000, with --large to 4194304, and no fewer than persons; without it
  as many as persons
  --from CERT     begin at the prices of the certificate CERT; without it at 0. With --objects it wants --direct
  --workers K     K threads for each kind of shard, 0 to 16; without it, and with 0, no threads. Not with --direct
  --audit ROOM    keep a trail of at most ROOM calls of each mail, 0 to 1000000; without it, and with 0, none. Wants
  --workers

Status 0: an assignment of least cost; 3: there is no assignment; 4: a limit ended the search with an assignment and a bound;
2: the arguments are no command; 5: an input is refused; 6: want of memory or of threads; 7: a guard of the solver was hit; 8: not all was written.";

/// What `auction check --help` writes.
pub(crate) const CHECK_PAGE: &str = "usage: auction check FILE [CERT] [--objects M] [--large]

Says whether the claim of the certificate CERT holds of the problem FILE: a least-cost assignment, an assignment and a
bound, or that there is
none. Without CERT the certificate is read from standard input. A name that begins with a hyphen goes after --.

  --objects M     the problem has M objects, 1 to 20000, with --large to 4194304, and no fewer than persons; without it
  as many as persons
  --large         take up to 4,194,304 persons and objects, and 268,435,456 arcs

Status 0: the claim holds; 3: it doesn't; 2: the arguments are no command; 5: an input is refused; 6: want of memory; 8:
not all
was written.";

/// What `auction hall --help` writes.
pub(crate) const HALL_PAGE: &str = "usage: auction hall [FILE] [--objects M] [--large]

Finds an arc for each person of the problem FILE, no object twice, at whatever cost, or persons who together may take
too few objects.
Without FILE the problem is read from standard input. A name that begins with a hyphen goes after --.

  --objects M     the problem has M objects, 1 to 20000, with --large to 4194304, and no fewer than persons; without it
  as many as persons
  --large         take up to 4,194,304 persons and objects, and 268,435,456 arcs

Status 0: an arc for each person; 3: there is no assignment; 2: the arguments are no command; 5: an input is refused; 6:
want of memory; 8: not all
was written.";

/// What `auction mail --help` writes.
pub(crate) const MAIL_PAGE: &str = "usage: auction mail [SCRIPT]

Makes the calls of SCRIPT on a new mail, the queue by which the shards of a solve talk, and prints the replies;
docs/FORMATS.md has the calls.
Without SCRIPT the script is read from standard input. A name that begins with a hyphen goes after --.

Status 0: all replies; 2: the arguments are no command; 5: the script is refused; 6: want of memory; 8: not all was written.";

/// What the program says of its version.
pub(crate) const VERSION_PAGE: &str = "auction 1.1 (Sigdorf)";
