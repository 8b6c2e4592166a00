//! A gas day of two cycles, and what is told of it.

/// Six rows of an opening, seven calls up to the freeze of the first cycle, and the five behind them.
pub(crate) const TEXT: &[u8] = b"segment,S1,A,B,100,,,
point,R1,receipt,A,OPR,1000,,
point,D1,delivery,B,OPD,1000,,
contract,FIRM,SHIP,firm,100,R1,D1,
contract,INT,SHIP,interruptible,100,,,
day,2026-03-08,\"CST6CDT,M3.2.0,M11.1.0\",DEMO,,,,
nominate,1772910900,SHIP,INT,P,R1,D1,70
nominate,1772910901,SHIP,FIRM,P,R1,D1,50
respond,1772910902,OPR,1,origin,70,,
respond,1772910903,OPD,1,dest,70,,
respond,1772910904,OPR,2,origin,50,,
freeze,1772922599,,,,,,
freeze,1772922600,,,,,,
settle,1772922600,,,,,,
respond,1772930000,OPR,2,origin,50,,
respond,1772930000,OPD,2,dest,50,,
freeze,1772937000,,,,,,
settle,1772937000,,,,,,
";

/// What is told of all.
pub(crate) const TOLD: &[u8] = b"opened,DEMO,0,0,,,,
accepted,1,1,1,,,,
accepted,2,2,2,,,,
done,3,,,,,,
done,4,,,,,,
refused,respond,3,UnknownLine,,,,
refused,freeze,3,TooEarly,,,,
frozen,5,1,1,1,,,
bound,1,4,0,70,,,
published,6,1,1,,,,
total,1,0,,,,,
total,2,0,,,,,
total,3,0,,,,,
total,4,70,,,,,
sched,1,70,,,,,
done,7,,,,,,
done,8,,,,,,
frozen,9,2,2,2,,,
bound,1,4,0,70,,,
bound,2,1,0,50,,,
published,10,2,2,,,,
total,1,50,,,,,
total,2,0,,,,,
total,3,0,,,,,
total,4,50,,,,,
sched,1,50,,,,,
sched,2,50,,,,,
bumped,1,20,,,,,
";

/// How many bytes are told of the opening, and how many with the first seven calls.
pub(crate) const OPENED: usize = 20;

pub(crate) const FROZEN: usize = 184;

/// The opening, the seven calls and the five.
pub(crate) fn parts() -> [&'static [u8]; 3] {
    let (opening, calls) = TEXT.split_at(206);
    let (first, later) = calls.split_at(238);
    [opening, first, later]
}

/// What an audit tells of a journal without pieces, and of one that keeps one part, two and three.
pub(crate) const NONE: &[u8] = b"differs,1,0,,,,,\n";

pub(crate) const ONE: &[u8] = b"replayed,DEMO,0,0,0,,,\n";

pub(crate) const TWO: &[u8] = b"replayed,DEMO,7,5,0,,,\n";

pub(crate) const THREE: &[u8] = b"replayed,DEMO,12,10,2,,,\n";

/// What is told of a file that can't be read or written.
pub(crate) const STORE: &[u8] = b"fault,0,Store,,,,,\n";

/// What is told of an input that can't be read, or ends within a line.
pub(crate) const UNREAD: &[u8] = b"fault,0,ReadFailed,,,,,\n";
