//! The sentences, each once: what was wrong or wanted, and what to do. Each is one line.

pub(crate) const OUT_OF_MEMORY: &[u8] =
    b"memory ran out; end other programs, or take a smaller input";

pub(crate) const READ_FAILED: &[u8] =
    b"it can't be read to its end: it is a folder, closed, or gives no bytes when asked; name a file";

pub(crate) const TOO_MANY_READS: &[u8] =
    b"it doesn't end within 1073741824 reads; name a file, or an input that ends";

pub(crate) const EMPTY: &[u8] =
    b"it is empty; a problem is its number of persons, and then person, object and cost of each arc";

pub(crate) const BAD_NUMBER: &[u8] =
    b"this is no whole number; write persons, objects and costs as whole numbers with white space between them";

pub(crate) const COUNT_RANGE: &[u8] =
    b"a problem begins with its number of persons, from 1 to 10000, with --large to 4194304; put it in front of the arcs";

pub(crate) const LARGE_COUNT_RANGE: &[u8] =
    b"a problem begins with its number of persons, from 1 to 4194304; put it in front of the arcs";

pub(crate) const TOO_FEW_OBJECTS: &[u8] =
    b"there are more persons than objects; give --objects the number of objects, at least that of the persons";

pub(crate) const TOO_MANY_ARCS: &[u8] =
    b"a problem has at most 33554432 arcs, with --large 268435456; leave out this one and those after it";

pub(crate) const LARGE_TOO_MANY_ARCS: &[u8] =
    b"a problem has at most 268435456 arcs; leave out this one and those after it";

pub(crate) const PERSON_RANGE: &[u8] =
    b"the problem has no such person; persons are numbered from 1 to the number that the problem begins with";

pub(crate) const OBJECT_RANGE: &[u8] =
    b"the problem has no such object; objects are numbered from 1 to the number of persons, or to that of --objects";

pub(crate) const COST_RANGE: &[u8] =
    b"this cost is out of range; costs are from -1000000000 to 1000000000, so take a greater unit";

pub(crate) const CUT_PROBLEM: &[u8] =
    b"the problem ends after this, inside an arc; an arc is a person, an object and a cost, so add what is missing";

pub(crate) const CERTIFICATE_LINE: &[u8] =
    b"no certificate has this line here; write it anew by auction solve, or see what docs/FORMATS.md wants here";

pub(crate) const WRONG_SIZE: &[u8] =
    b"it is of a problem with other numbers of persons or objects; check it with the problem it was made for, and the same --objects";

pub(crate) const NO_SUCH_ARC: &[u8] =
    b"what it picks for this person is no arc of the problem; check it with the problem it was made for";

pub(crate) const OBJECT_TWICE: &[u8] =
    b"it picks this object for two persons; an assignment takes each object at most once, so don't use it";

pub(crate) const WRONG_COST: &[u8] =
    b"its cost is not the sum of its picks; the picks may be used, and the cost may not";

pub(crate) const SLACK: &[u8] =
    b"at its prices this person has a better arc than the one picked, so a least cost isn't shown; solve anew";

pub(crate) const LEFT_OVER: &[u8] =
    b"it gives a price to this object, which nobody takes, so a least cost isn't shown; solve anew";

pub(crate) const NOT_HALL: &[u8] =
    b"the persons it names may take as many objects as they are, so an assignment isn't ruled out; solve anew";

pub(crate) const WRONG_BOUND: &[u8] = b"its lower bound is not that of its prices; solve anew";

pub(crate) const NOT_SQUARE: &[u8] =
    b"a solve starts from old prices only with as many objects as persons; leave out --from, or add --direct";

pub(crate) const NO_PRICES: &[u8] =
    b"it names persons who may take too few objects, and has no prices to start from; leave out --from";

pub(crate) const OTHER_SIZE: &[u8] =
    b"it is of a problem with another number of persons or objects; leave out --from, or name that of an equal number";

pub(crate) const TOO_HIGH: &[u8] =
    b"the price of this object is above 1152921504606846976, too high to start from; leave out --from";

pub(crate) const SCRIPT_WORD: &[u8] =
    b"this is not allowed here; a script is mail BOXES SENDERS NODES MOST, and then post, take and close with their numbers";

pub(crate) const SCRIPT_RANGE: &[u8] =
    b"this number is out of its range; docs/FORMATS.md has the range of each number of a script";

pub(crate) const CUT_SCRIPT: &[u8] =
    b"the script ends inside a command, or has none; add what is missing, or begin with mail BOXES SENDERS NODES MOST";

pub(crate) const TOO_MANY_CALLS: &[u8] =
    b"a script has at most 1000000 calls; leave out those after them";

pub(crate) const NO_THREADS: &[u8] =
    b"a thread couldn't be started; give --workers a smaller number, or leave it out";

pub(crate) const BIDS_RAN_OUT: &[u8] =
    b"a limit ended the search: the answer is an assignment, and a bound below which none costs; for a least cost raise --bids, or --seconds where it is given";

pub(crate) const CEILING_PASSED: &[u8] =
    b"a price would have passed the greatest one: the answer is an assignment, and a bound below which none costs; for a least cost use a greater unit, so that costs differ by less";

pub(crate) const POSTS_RAN_OUT: &[u8] =
    b"a mail has had as many letters as it may have: the answer is an assignment, and a bound below which none costs; for a least cost leave out --workers, or give --direct instead";

pub(crate) const TRAIL_FULL: &[u8] =
    b"a trail of --audit was full: the answer is an assignment, and a bound below which none costs; for a least cost raise --audit, or leave it out";

pub(crate) const MAIL_FULL: &[u8] =
    b"a mail had no room left: the answer is an assignment, and a bound below which none costs; for a least cost leave out --workers, or give --direct instead";

pub(crate) const NO_ASSIGNMENT: &[u8] =
    b"there is no assignment: the persons that the answer names may take fewer objects than they are; give them more arcs, or leave some out";

pub(crate) const BRACKET_ALONE: &[u8] =
    b"a limit ended the search: the answer is an assignment, and a bound below which none costs";

pub(crate) const GUARD_HIT: &[u8] =
    b"a guard of the solver was hit, and there is no answer; solve without --workers";

pub(crate) const NOT_WRITTEN: &[u8] =
    b"standard output was not written, or not all of it; see that its disk has room, and that its reader reads on";

pub(crate) const INPUT_REFUSED: &[u8] = b"an input was refused; see standard output";

pub(crate) const STATUS_ALONE: &[u8] =
    b"the job has ended with this status alone; see standard output";

pub(crate) const GZIP: &[u8] =
    b"this file is packed by gzip; unpack it first, as by gzip -dc FILE | auction solve";

pub(crate) const PACKED: &[u8] = b"this file is packed by bzip2, xz or zstd; unpack it first";

pub(crate) const ZIP: &[u8] =
    b"this is a workbook (.xlsx, .ods) or a zip archive; tables in workbooks are for auction-plan (./plan in a clone), and an archive wants unpacking";

pub(crate) const UTF16: &[u8] =
    b"this text is encoded as UTF-16; save it as UTF-8, as by iconv -f UTF-16 -t UTF-8 FILE | auction solve";

pub(crate) const MARKED: &[u8] =
    b"this text begins with a byte order mark; save it without, as by tail -c +4 FILE | auction solve";

pub(crate) const MATRIX_MARKET: &[u8] =
    b"this is a MatrixMarket file; leave out the lines that begin with %, write its rows alone on the first line, and its columns after --objects";

pub(crate) const DIMACS: &[u8] =
    b"this is a DIMACS file; write the number of persons alone, then person, object and cost of each line a, with objects numbered from 1";

pub(crate) const CERTIFICATE: &[u8] =
    b"this is a certificate; name the problem first, and after it the certificate";

pub(crate) const SCRIPT: &[u8] = b"this is a script of a mail; auction mail makes its calls";

pub(crate) const JSON: &[u8] =
    b"this is JSON; tables of names are for auction-plan (./plan in a clone), and a problem is whole numbers with white space between them";

pub(crate) const SEPARATED: &[u8] =
    b"this looks like a table (CSV), for auction-plan (./plan in a clone); a problem is whole numbers with white space between them";
