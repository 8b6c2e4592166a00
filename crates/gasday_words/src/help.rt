//! The texts of help: a short one for `-h`, a long one for `--help`.
//!
//! The manual (man/gasday.1) is made of the long ones and of its own sections.

/// What stands under the help of the program.
pub(crate) const SHORT: &str = "With no command it does what 'check allowed' does.

Examples:
  gasday check allowed < examples/two-lines.csv
  gasday day --book 0308.book < examples/gas-day/two-cycles.csv

'gasday --help' tells each row that is read, each fault with its remedy, and the exit statuses;
'gasday COMMAND --help' tells what a command prints.";

/// What stands under the long help of the program: each row that is read, and each fault.
pub(crate) const LONG: &str = "With no command it does what 'check allowed' does.

A text may stand in several files, which are read in their order, each ended by a line break if it has
none: 'gasday solve net.csv day.csv'. Without a name it is read from standard input, which may also stand
among the files: 'gasday solve net.csv - < day.csv'. Of files that can't be read nothing is answered, and
standard error tells why. What goes wrong is told to people, too, on standard error, with the line of the
text as an editor counts it.

Examples:
  gasday check allowed examples/two-lines.csv
  gasday check allowed < examples/two-lines.csv
  gasday day --book 0308.book < examples/gas-day/two-cycles.csv

Exit status:
  0                   The answer is good. Calls of a day that are refused don't change that, but with
                      --strict.
  1                   A schedule, a price or a cut is broken; no schedule is allowed (solve); a gas
                      day has no calendar; an office's receipts don't fit its books; a posting was
                      kept before; an archive is unsound, or isn't of version 1 when it is migrated;
                      a row was faulty (day --book); a day or an office didn't come to what is in order
                      (--strict); a book's file isn't what was told; the book was never frozen in the
                      round that is asked for (question).
  2                   A fault of the command line, the text, reading, writing, the archive, the
                      book's file, the memory or the threads.

Rows that are read:
A text is read by the rules of csv (RFC 4180): commas, double quotes, rows ended by LF, CRLF or CR.
Empty lines are skipped, and rows are counted from 1 without them. There is no header row, and each
row has eight fields; those that aren't used are empty. A byte order mark at the start is dropped.
A name is 1 to 16 of A to Z, 0 to 9 and -. A number is 1 to 18 decimal digits. Quantities and
capacities are 0 to 1,000,000,000. MOMENT is in seconds since 1970-01-01T00:00:00Z, 0 to
4,200,000,000. Rows stand in the order of the stages below. The rows of one stage may be mixed.

Stage 1, the pipeline:
  segment,NAME,FROM,TO,CAPACITY
      A one-way segment between two places. The first has two new places, and each further one
      exactly one place that is known. Example: segment,S1,A,B,100,,,
  point,NAME,receipt,PLACE,OPERATOR,CAPACITY
      A point where gas comes in, or with delivery one where it leaves. Example:
      point,R1,receipt,A,OPR,1000,,
  pool,NAME,PLACE,OPERATOR
      A pool. Example: pool,P1,B,OPP,,,,

Stage 2, contracts (day and office):
  contract,NAME,SHIPPER,firm,QUANTITY,ORIGIN,DEST
      A firm contract between two primary ends. Example: contract,FIRM,SHIP,firm,100,R1,D1,
  contract,NAME,SHIPPER,interruptible,QUANTITY,BAND
      An interruptible contract of a rate band from 1 to 5, which may be left out for 1. Example:
      contract,INT,SHIP,interruptible,100,3,,

Stage 3, the head:
  question,BOOK,CYCLE,ROUND
      The head of a question (check and solve): cycle 1 to 5, round 1 to 1,000,000. Example:
      question,DEMO,1,1,,,,
  day,DATE,ZONE,BOOK
      The head of a gas day (calendar, day and office): a date from 2016-04-02 to 2099-12-31 and the
      zone of its clock as a POSIX rule. BOOK may be left out in a calendar. Example:
      day,2026-03-08,\"CST6CDT,M3.2.0,M11.1.0\",DEMO,,,,

Stage 4:
  capacity,ELEMENT,CAPACITY
      Another capacity of a segment or point in this question (check and solve). Example:
      capacity,S1,80,,,,,
  carry,CONTRACT,PACKAGE,ORIGIN,DEST,QUANTITY
      What a line was scheduled the gas day before (day and office), as gasday carry prints it.
      Example: carry,FIRM,P,R1,D1,80,,

Stage 5:
  line,ORIGIN,DEST,CLASS,FLOOR,CEILING
      A line of class 1 to 8 (check and solve). Lines are numbered from 1 in their order. Example:
      line,R1,D1,4,0,50,,

Stages 6 to 8, what is offered:
  sched,LINE,QUANTITY
      The quantity of a line: lines 1, 2, 3 and so on (check allowed, check best, day). Example:
      sched,1,80,,,,,
  price,ELEMENT,LEVEL,WORD,SPREAD
      The two words of an element's price at class LEVEL, each a number that may begin with -.
      SPREAD may be left out for 0, and words that no row gives are 0 (check best, day). Example:
      price,S1,4,1,-5,,,
  inside,place,NAME
      A member of a cut's set; also inside,point, and inside,pool, (check cut, day). Example:
      inside,place,A,,,,,

Stage 9, the calls of a gas day:
In day all of these but the last two, in office the first three and the last two.
  nominate,MOMENT,PARTY,CONTRACT,PACKAGE,ORIGIN,DEST,QUANTITY
      A shipper nominates a quantity on a line. Example: nominate,1772910900,SHIP,INT,P,R1,D1,70
  respond,MOMENT,PARTY,LINE,origin,QUANTITY
      An operator confirms a quantity at one end of a line; dest is the other end. Example:
      respond,1772910902,OPR,1,origin,70,,
  post,MOMENT,ELEMENT,CAPACITY
      Another capacity from now on. Example: post,1772985000,S1,60,,,,
  freeze,MOMENT
      Closes the cycle, from its confirmation time on. Example: freeze,1772922600,,,,,,
  settle,MOMENT
      Solves the frozen question, and publishes its best schedule or declares a cut. Example:
      settle,1772922600,,,,,,
  publish,MOMENT,ROUND
      Publishes the sched and price rows directly before it. Example: publish,1773007300,5,,,,,
  declare,MOMENT,ROUND
      Declares the cut whose inside rows stand directly before it. Example:
      declare,1772991000,3,,,,,
  waive,MOMENT,LINE
      A line gives up its protection in this cycle, where a cut is declared. Example:
      waive,1773007300,1,,,,,
  skip,MOMENT
      Skips the cycle, where a cut is declared. Example: skip,1772991100,,,,,,
  session,SLOT,PARTY
      A session of a party with the book of a slot begins; the nominate, respond and post rows
      behind it are its calls. Example: session,1,SHIP,,,,,
  desk,MOMENT
      The sessions so far are run, and then each slot's book is frozen and settled. Example:
      desk,1772922600,,,,,,

In an archive alone:
  bumped,LINE,QUANTITY
      In the body of a posting, which audit reads: so much was taken from a line. In every other
      text the kind is unknown. Example: bumped,1,20,,,,,

Blocks of an office:
In the text of an office a segment row behind a day or carry row begins the next block. Each block
has a day row, and is a slot, counted from 1.

Faults:
fault,ROW,CAUSE,FIELD tells the first faulty row, with status 2 (of a text nothing else is printed).
ROW is counted from 1 without empty lines, and one past the last where something is missing; it is 0
where no row is blamed. With day --book each faulty row is told, and the run goes on.
  FieldCount          The row has not eight fields, or it stands behind the opening of a book's file
                      and has a quotation mark. Add or remove commas; quote a field that has commas
                      of its own.
  UnknownKind         The first field is no kind of row. Kinds are in lower case.
  Order               The row may not stand there: the command doesn't take its kind, its stage is
                      below that of a row before it, a second head, sched, price or inside rows that
                      no publish or declare row takes, a call without a session, or one more opening
                      of a book's file. Move or remove it.
  BadField            Field FIELD, counted from 1, isn't of its form or range, is out of sequence,
                      or should be empty. Correct it.
  Missing             There is no question or day row, or none in a block of an office. Add it.
  Limit               The 65th book of an office, the 65th session before one desk row, or the
                      1,025th session of a slot. Split the text, or put a desk row between.
  Duplicate           The name is taken (segments, points and pools share one space of names), or a
                      contract, a price, a carried line or a book stands twice. Rename or remove
                      one.
  Unjoined            The segment's ends are equal, or not exactly one of them is known. Order the
                      segments from the first one on; there may be no loop.
  UnknownPlace        No segment has that place. Correct the name, or put the segment before.
  TooMany             The 4,097th place, point or contract, the 257th pool, or the 20,001st line:
                      leave some out. At row 0 one more session of a slot than may be open: split
                      the text.
  NoSegment           There is no segment row. Add one.
  UnknownEnd          An end is no point and no pool. Correct its name.
  WrongEnd            Gas would come from a delivery point, or go to a receipt point. Exchange the
                      ends or correct them.
  SameEnd             Both ends are the same. Use another one.
  NoRoute             A segment would be passed against its direction. Use another end.
  UnknownElement      No element has that name. Correct it.
  IsPool              A pool has no capacity. Remove the row.
  FloorAboveCeiling   The line's floor is above its ceiling. Lower the one or raise the other.
  BadClass            The line's class is 0 or above 8. Correct it.
  ReadFailed          Standard input can't be read, or with day --book it ended within a line. Try
                      again; end each line by a line feed.
  TooLong             The text has more than 268,435,456 bytes or 1,100,000 rows, or took 4,194,304
                      reads. Make it smaller, and hand it over as a file and not in small pieces. At
                      a row of day --book the book's file would have more bytes or rows than that:
                      it takes no more calls.
  OutOfMemory         Memory ran out. Whole rows before this one hold. Give more memory, or a
                      smaller text.
  NoThread            No thread could be started (office). Raise the limit of processes, or use
                      fewer sessions before one desk row.
  Store               The archive or the book's file can't be opened, read or written, another
                      process writes to the archive, or the file is none. Check its name, its rights
                      and the room on the disk, and try again.
  Busy                Another process has the book's file. End that one, or wait until it has ended.
  OldVersion          The archive is of version 1. Run gasday migrate on it, on a copy first.
A fault of the command line is told on standard error, with status 2.

'gasday COMMAND --help' tells the rows that a command prints, and what each of its refusals means.";

/// What stands under the help of `check`.
pub(crate) const SHORT_OF_CHECK: &str = "Examples:
  gasday check allowed < examples/two-lines.csv
  gasday check best < examples/two-lines-priced.csv
  gasday check cut < examples/pool-cut.csv
  gasday check question.csv answer.csv

'gasday check --help' tells more.";

/// What stands under the long help of `check`.
pub(crate) const LONG_OF_CHECK: &str =
    "It reads a pipeline and a question: rows segment, point, pool, question, capacity and line; and behind
them rows sched, and for 'best' rows price, or for 'cut' rows inside in place of them ('gasday --help'
tells each row). Of 'check QUESTION ANSWER' the second file is all that solve answered to the first; the
check that it asks for is made of its rows. It prints one of
  allowed             The schedule is allowed; total rows follow.
  best                The schedule is best; total rows follow, and of solve sched and price rows.
  total,CLASS,QUANTITY
      The total of a class, from class 1 to the greater of 4 and the greatest class of the lines.
  cut,EXCESS
      No schedule is allowed: so many dekatherms too many must leave the set. Of solve the inside
      rows of the set follow.
  broken,NAME,ITEM
      What was offered doesn't pass; see BROKEN below.

What a check finds first, with status 1; ITEM is a line's number or an element's name. The remedy is
always another schedule, other prices or another set, for instance those of solve.
  Shape               Not one quantity for each line.
  BelowFloor          A line lies below its floor.
  AboveCeiling        A line lies above its ceiling.
  OverCapacity        A segment or point carries more than its capacity.
  Unbalanced          More or less gas leaves a pool than enters it.
  PriceTooLarge       A word of a price is above 2^40 in size.
  PriceOnSlack        A segment or point has a price above zero and isn't full, or one below zero
                      and carries something.
  Underfilled         A line would gain by its next dekatherm: the schedule isn't best, or a price
                      is missing.
  Overfilled          A line loses by its last dekatherm: the schedule isn't best, or a price is too
                      high.
  NotCut              The set has no excess above 0.

Of an answer its rows are checked first, and then its best row with the totals, or its cut row: what says
another thing than the check, as a total or the excess, is BadField there, and so is a first row that is
neither of the two; an empty answer is Missing. Rows are counted over both files. A file that is called
allowed, best or cut is named ./best.

Examples:
  gasday check allowed < examples/two-lines.csv
  gasday check best < examples/two-lines-priced.csv
  gasday check cut < examples/pool-cut.csv
  gasday solve question.csv | gasday check question.csv -";

/// What stands under the help of `solve`.
pub(crate) const SHORT_OF_SOLVE: &str = "Example:
  gasday solve < examples/solve/question.csv

'gasday solve --help' tells more.";

/// What stands under the long help of `solve`.
pub(crate) const LONG_OF_SOLVE: &str =
    "It reads a pipeline and a question: rows segment, point, pool, question, capacity and line.
Where there is a best schedule it prints 'best' and the total of each class, and then rows
  sched,LINE,QUANTITY
  price,NAME,LEVEL,WORD,SPREAD
of each line, and of each level of a price where one of the two words isn't 0. Where no schedule is
allowed it prints
  cut,EXCESS
  inside,KIND,NAME
with the places, points and pools of a set that more gas must leave than can, with status 1.

What it prints can be checked, without trusting how it was found: put the rows after the totals
behind the question's own, and give all to 'gasday check best'; or the inside rows, and give all to
'gasday check cut'.

Example:
  gasday solve < examples/solve/question.csv";

/// What stands under the help of `calendar`.
pub(crate) const SHORT_OF_CALENDAR: &str = "Example:
  gasday calendar < examples/gas-day.csv

'gasday calendar --help' tells more.";

/// What stands under the long help of `calendar`.
pub(crate) const LONG_OF_CALENDAR: &str =
    "It reads one row: day,DATE,ZONE,,,,, with ZONE as a POSIX rule in quotes, as
  day,2026-03-08,\"CST6CDT,M3.2.0,M11.1.0\",,,,,
It prints five rows
  cycle,NO,LEAVES,RECEIVED,QUICK,CONFIRMED,SCHEDULES,EFFECTIVE
with each moment in seconds since 1970-01-01T00:00:00Z, and a last row
  hours,LENGTH,TIMELY,EVENING,INTRADAY1,INTRADAY2,INTRADAY3
with the hours of the gas day, and how many of them are over where each cycle takes effect.

Or one row, with status 1:
  refused,calendar,1,OutOfRange
  refused,calendar,2,BadZone
  OutOfRange          The date isn't from 2016-04-02 to 2099-12-31. Correct it. Status 1.
  BadZone             The zone is no POSIX rule, or gives the gas day no calendar. Write it as
                      CST6CDT,M3.2.0,M11.1.0, in quotes. Status 1.

Example:
  gasday calendar < examples/gas-day.csv

A moment by the clock of the zone:
  TZ='CST6CDT,M3.2.0,M11.1.0' date -d @1772910900";

/// What stands under the help of `day`.
pub(crate) const SHORT_OF_DAY: &str = "Examples:
  gasday day < examples/gas-day/two-cycles.csv
  gasday day --archive postings.db < examples/gas-day/two-cycles.csv
  gasday day --book 0308.book < examples/gas-day/two-cycles.csv

'gasday day --help' tells more.";

/// What stands under the long help of `day`.
pub(crate) const LONG_OF_DAY: &str =
    "It reads a pipeline, contracts and a gas day: rows segment, point, pool, contract, day and carry; and
then the calls in order: rows nominate, respond, post, freeze, settle, publish, declare, waive and skip.
A publish row takes the sched and price rows just before it, a declare row the inside rows.
For each call it prints what was accepted, or why it was refused:
  accepted,NUMBER,CYCLE,LINE
  done,NUMBER
  frozen,NUMBER,CYCLE,ROUND,LINES       and a bound row for each line
  published,NUMBER,CYCLE,ROUND          and rows total, sched and bumped
  declared,NUMBER,CYCLE,ROUND           and the inside rows of the cut
  refused,CALL,N,NAME,DETAIL,ITEM

The refusals of each call by their number N, the first that applies:
  nominate  1 DayClosed, 2 UnknownContract, 3 NotShipper, 4 UnknownEnd, 5 WrongEnd, 6 SameEnd, 7
            NoRoute, 8 OverContract, 9 TooManyLines, 10 TooManyEvents
  respond   1 AllSettled, 2 Frozen, 3 UnknownLine, 4 NotOperator, 5 TooManyEvents
  post      1 AllSettled, 2 Frozen, 3 UnknownElement, 4 IsPool, 5 TooManyEvents
  freeze    1 AllSettled, 2 Frozen, 3 TooEarly, 4 TooManyEvents
  settle    1 NotFrozen, and then as of publish or declare
  publish   1 NotFrozen, 2 StaleRound, 3 Certificate or OtherQuestion, 4 TooManyEvents
  declare   1 NotFrozen, 2 StaleRound, 3 NoCutProof, 4 TooManyEvents
  waive     1 AllSettled, 2 Frozen, 3 NoCut, 4 UnknownLine, 5 TooManyEvents
  skip      1 AllSettled, 2 Frozen, 3 NoCut, 4 TooManyEvents
  DayClosed           The moment lies behind the received time of all five cycles. Nominate earlier.
  UnknownContract     There is no contract of that name. Correct it.
  NotShipper          The party isn't the contract's shipper. Only the shipper nominates under it.
  OverContract        The contract's lines would be nominated more than its quantity. Nominate less,
                      or lower another line first.
  TooManyLines        The 20,001st line of the gas day. Nominate on lines that are there.
  TooManyEvents       The history has 1,000,000 events, and the book takes no more. There is no
                      remedy in this gas day.
  AllSettled          All five cycles are over. The call belongs to another gas day.
  Frozen              The cycle is frozen. Settle, publish or declare first.
  UnknownLine         There is no such line, or none of its nominations is for this cycle or a
                      former one. Use the line's number in the accepted row, or nominate first.
  NotOperator         The party isn't the operator of that end. Only the operator responds.
  TooEarly            The moment lies before the cycle's confirmation time, which calendar tells.
                      Freeze later.
  NotFrozen           The cycle isn't frozen. Freeze it first.
  StaleRound          The round isn't the current one, which DETAIL tells. Answer the question of
                      that round.
  Certificate         The schedule with its prices doesn't pass; DETAIL and ITEM are as in BROKEN.
                      Offer another one, or use settle.
  OtherQuestion       The certificate is of another question than the frozen one. Offer one that is
                      made for it.
  NoCutProof          The set is no cut; DETAIL is Shape or NotCut. Offer another set, or use
                      settle.
  NoCut               No cut was declared in this cycle. Only behind a declared row may a line
                      waive, or the cycle be skipped.
  BoardTaken          Somebody else posted for this cycle (number 6). What was posted stands.
  UnknownEnd          An end is no point and no pool. Correct its name.
  WrongEnd            Gas would come from a delivery point, or go to a receipt point. Exchange the
                      ends or correct them.
  SameEnd             Both ends are the same. Use another one.
  NoRoute             A segment would be passed against its direction. Use another end.
  UnknownElement      No element has that name. Correct it.
  IsPool              A pool has no capacity. Remove the row.

Standard error sums the run up: how many cycles were published, declared impossible, skipped or never
frozen, and how many calls were refused. It also tells of freezes that came when their cycle was in effect
already, and of calls that came when the gas day was over.

With --strict, which doesn't go with --book, it prints the same rows, and ends with 1 where a call was
refused, a cycle was declared impossible, or a freeze or a call came too late in that way.

With --archive FILE, after the run what was published in each cycle is kept in FILE, a SQLite database,
which is made where it isn't there. For a cycle that has a posting there already it prints
  refused,keep,1,Kept
  Kept                The archive has a posting of this book and cycle, which is left as it is. Name
                      each gas day's book by its date. Status 1.
Standard error tells whether that posting is the very one that was published now, and where it is another
one the SHA-256 of both. With --strict the status is 1 only where it isn't the very one.

With --book FILE, and without --archive, it serves rows of calls as they come, each told and flushed at
once, on the book that FILE keeps, a SQLite database, which is made where it isn't there. Where FILE
keeps no book the head of the input opens it: rows segment, point, pool, contract, day and carry, which
end at the first line of a call or of a sched, price or inside row, or with the input. Where FILE keeps
one, its calls are made again first, and rows of an opening are faulty. The first row that it prints is
  opened,BOOK,CALLS,EVENTS
      FILE keeps so many calls, accepted or refused, and the book's history has so many events.
and then it prints the rows above for each call. What is told was kept before, so nothing told is lost,
however the run ends: after a break open FILE again, and go on behind its CALLS. A settled cycle is kept
as the rows that publish or declare what it came to.

A row is one line, and takes no quotation marks behind the opening. An empty line is told back as an
empty line, so that a front end sees where an answer ends. A faulty row is told as
  fault,ROW,CAUSE,FIELD
      CAUSE and FIELD are those of any text, and ROW is counted from 1 over the whole input of the
      run. The row changes nothing and isn't kept, and it drops the sched, price and inside rows that
      wait before it; the run goes on. A call that leaves such rows over isn't made: it is told as
      Order, at the first of them. A fault of the opening ends the run, with status 2.
What stands behind the last line feed is no row: it is told as ReadFailed, at row 0. FILE keeps no more
rows and bytes than one text may have: a row beyond that is told as TooLong. Where another process has
FILE it prints fault,0,Busy, and where FILE can't be opened, read or written, or is no book's,
fault,0,Store. Where FILE isn't what was told it prints
  differs,PIECE,CALL
      At this piece, and at this call over the whole file, both counted from 1: the call gives other
      rows than FILE says were told. Call 0 is the opening. Take FILE from a copy. Status 1.
Standard error tells at once of a freeze that comes when its cycle is in effect already, and of the first
call that comes when the gas day is over: a clock is wrong then. The status is 0 where the input ended and
no row was faulty; 1 where a row was faulty, the opening has no calendar or FILE differs; and 2 where the
run failed.

Examples:
  gasday day < examples/gas-day/two-cycles.csv
  gasday day --archive postings.db < examples/gas-day/two-cycles.csv
  gasday day --book 0308.book < examples/gas-day/two-cycles.csv";

/// What stands under the help of `office`.
pub(crate) const SHORT_OF_OFFICE: &str = "Example:
  gasday office < examples/office/two-books.csv

'gasday office --help' tells more.";

/// What stands under the long help of `office`.
pub(crate) const LONG_OF_OFFICE: &str =
    "It reads blocks of rows segment, point, pool, contract, day and carry, each the book of a slot, numbered
from 1; and then phases: rows
  session,SLOT,PARTY
each with the nominate, respond and post rows of that party behind it, and a row
  desk,MOMENT
that lets all sessions before it make their calls, each in a thread of its own, and then each slot's desk
freeze, solve, and publish or declare. For each phase it prints, by session (numbered over the whole text),
  receipt,SESSION,accepted,NUMBER,CYCLE,LINE
  receipt,SESSION,done,NUMBER
  receipt,SESSION,refused,LENGTH,N,NAME
and then, by slot, 'slot,K' and what its desk was answered, as 'day' prints it. At the end, by slot,
  reconciled,K,EVENTS,COUNT,QUANTITY
where all receipts fit the book's one history of so many events: so many nominations were accepted, of
that quantity together; or 'mismatch' with the first receipt that does not fit.

Refusals are those of 'gasday day --help'. Where a slot's sessions can't be closed it prints
  refused,close,3,Missing,N,K
  Missing             The sessions of a slot can't be closed: so many as DETAIL are open and were
                      not handed in (ITEM is the slot). Nothing of the text causes it; keep the text
                      and tell who maintains the program. Status 1.

Standard error sums all its gas days up, and --strict turns the status to 1, as 'gasday day --help' tells.

Example:
  gasday office < examples/office/two-books.csv";

/// What stands under the help of `audit`.
pub(crate) const SHORT_OF_AUDIT: &str = "Examples:
  gasday audit postings.db
  gasday audit 0308.book

'gasday audit --help' tells more.";

/// What stands under the long help of `audit`.
pub(crate) const LONG_OF_AUDIT: &str =
    "It checks each posting of an archive against its own question. Where all are sound it prints their number
  audited,COUNT
and else the first that fails, by book and cycle:
  unsound,BOOK,CYCLE,NAME
NAME is Damaged (no posting, or another one's), or what its check finds broken, as
'gasday check --help' tells. Take the file from a copy, or look at the row with sqlite3.

With --all it tells of each posting, by book and cycle. An unsound one is told as above, a sound one by
  sound,BOOK,CYCLE,ROUND,RULE,LINES,QUANTITY,SUM
ROUND and LINES are those of its question, QUANTITY is what its schedule gives all lines together, and SUM
is the SHA-256 of the body that the archive keeps, in 64 hexadecimal digits. RULE is 2, and 1 where the
posting is from an archive of version 1: best by class totals, without the spread. NAME is also Bumped:
its bumped rows tell other quantities than its schedule takes from that of the posting of the cycle
before. Where the archive has none of that cycle, they are compared with nothing, and behind it stands
  unchecked,BOOK,CYCLE,Bumped
Behind them all audited,COUNT counts the sound ones. The status is 1 where one is not sound. Of a book's
file --all tells no more.

Of the file of a book that day --book serves it makes all calls again, and compares each reply with
what was told. Where they are the same it prints, with status 0,
  replayed,BOOK,CALLS,EVENTS,PUBLISHED
for so many calls, accepted or refused, and a history of so many events, of which so many published a
schedule; and else, with status 1, the first call that gives other rows than the file says were told,
by its piece and its number over the whole file, where 0 is the opening:
  differs,PIECE,CALL
A FILE that may not be written, as on a read-only medium, is read as a copy in memory, and nothing is
written beside it; so do text, question and carry. Where another process has FILE, --wait SECONDS waits up
to so long for it, 1 to 1,000,000, as it does with every command that names a FILE.
It reads nothing from standard input.

Examples:
  gasday audit postings.db
  gasday audit --all postings.db
  gasday audit 0308.book";

/// What stands under the help of `text`.
pub(crate) const SHORT_OF_TEXT: &str = "Example:
  gasday text 0308.book

'gasday text --help' tells more.";

/// What stands under the long help of `text`.
pub(crate) const LONG_OF_TEXT: &str =
    "It prints the text of the gas day that FILE keeps, the file of a book that day --book serves: the
opening and all calls, accepted or refused, as they came; but a settled cycle as the rows that publish
or declare what it came to. It makes no call: audit tells whether FILE is what was told.
It reads nothing from standard input.

What was told is told once more by
  gasday text FILE | gasday day
its postings are put into an archive by
  gasday text FILE | gasday day --archive postings.db
and a file of a text is made by
  gasday day --book NEW < day.csv

Example:
  gasday text 0308.book";

/// What stands under the help of `question`.
pub(crate) const SHORT_OF_QUESTION: &str = "Examples:
  gasday question 0308.book 2
  gasday question examples/gas-day/two-cycles.csv 1 1 | gasday check best

'gasday question --help' tells more.";

/// What stands under the long help of `question`.
pub(crate) const LONG_OF_QUESTION: &str =
    "It makes the calls of a gas day, and prints the question that the book was frozen with in a round of
CYCLE. FILE is the text of the gas day, as day takes it, or the file of a book that day --book serves.
ROUND is the one that the frozen row tells, which counts the freezes of the gas day; without it the last
round of CYCLE is meant.

It prints segment, point, pool, question, capacity and line rows; and behind them
  sched,LINE,QUANTITY
  price,NAME,LEVEL,WORD,SPREAD
where a schedule was published for this question, or
  inside,KIND,NAME
where it was declared to have none that is allowed. So check best takes the former text, and check cut the
latter. Where neither was told there are no such rows, and solve takes the text.

Where the book was never frozen so it prints
  refused,question,1,NotFrozen
  NotFrozen           The book was never frozen in this cycle, or not in this round of it. The frozen
                      rows that were told name the rounds. Status 1.
What is wrong with FILE is told as day tells it of a text, and as audit does of a book's file.
Of standard input it reads a text where FILE is -, and else nothing.

Examples:
  gasday question 0308.book 2
  gasday question examples/gas-day/two-cycles.csv 1 1 | gasday check best";

/// What stands under the help of `carry`.
pub(crate) const SHORT_OF_CARRY: &str = "Example:
  gasday carry 0308.book > carry.csv

'gasday carry --help' tells more.";

/// What stands under the long help of `carry`.
pub(crate) const LONG_OF_CARRY: &str =
    "It makes the calls of a gas day, and prints of each line the row
  carry,CONTRACT,PACKAGE,ORIGIN,DEST,QUANTITY
that stands behind the day row in the text of the next gas day. QUANTITY is what the line is scheduled by
what was published last, and 0 where nothing was. FILE is the text of the gas day, as day takes it, or the
file of a book that day --book serves. What is wrong with FILE is told as day tells it of a text, and as
audit does of a book's file.
Of standard input it reads a text where FILE is -, and else nothing.

Example:
  gasday carry 0308.book > carry.csv
  gasday day pipeline.csv contracts.csv day.csv carry.csv calls.csv";

/// What stands under the help of `migrate`.
pub(crate) const SHORT_OF_MIGRATE: &str = "Example:
  gasday migrate postings.db

'gasday migrate --help' tells more.";

/// What stands under the long help of `migrate`.
pub(crate) const LONG_OF_MIGRATE: &str =
    "It brings the archive FILE from version 1 to version 2 in one transaction, keeping every posting, and
prints their number
  migrated,COUNT
or, where the archive isn't of version 1,
  refused,migrate,1,OtherVersion
It reads nothing from standard input.

Example:
  gasday migrate postings.db";
