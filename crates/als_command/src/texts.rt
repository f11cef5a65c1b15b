// The texts of the pages of help. `docs/help` has the pages as the program prints them, for `./als` before a build.

pub const ABOUT: &str =
    "A hot standby that redoes the log which its primary ships (ARIES, continuous redo).";

/// What `--version` prints behind the program's name.
pub const VERSION: &str = "0.2.0";

pub const STATUSES: &str = "Exit statuses:
  0  done (in sim also where a step was refused: its line says so)
  2  a fault of the command line, or `line N: bad line`
  3  `als: refused N Name`, or a world line that was refused";

pub const MAKE_ABOUT: &str = "Makes a log text from record lines";

pub const MAKE_HELP: &str = "Reads standard input: a line `pages N`, and then record lines
  u T P S BEFORE AFTER    update of slot S of page P by transaction T
  c T P S AFTER NEXT      compensation with UndoNxtLSN NEXT
  commit T, rollback T, end T, prepare T
  ckpt, ckptend           begin_chkpt, and end_chkpt with empty tables
each with an optional ` prev=N` in place of its own PrevLSN. A value is lower
case hexadecimal, `.` for the empty value, `-` for absent. Empty lines and lines
that begin with # are passed over.
Writes standard output: the log's header and its records.

Example:
  printf 'pages 4\\nu 1 0 0 - aa\\ncommit 1\\nend 1\\n' | als make --hex

Exit statuses: 0 done, 2 a fault of the command line or `line N: bad line` (then
nothing is written), 3 `als: refused N Name`.";

pub const SIM_ABOUT: &str = "Runs a script on a standby in memory";

pub const SIM_HELP: &str = "Reads standard input: first a line
  world pages=P log=B frames=F workers=W pending=Q
and then record lines as `als make` reads them, which make the primary's log
text, and
  feed A B                give the standby bytes A to B-1 of the text
  resync                  drop the partial record, follow again
  lend P W                lend page P into worker slot W, with the first of its
                          pending changes
  redo W                  redo the next change of the lease in slot W
  hand W V                move the lease in slot W to slot V
  give W                  give the lease in slot W back: its page takes what it redid
  drop W                  drop the lease in slot W: its page stays lent
  recall P                make a stranger of the lease of page P
  drain                   lend to slot 0, redo and give, until nothing is pending
  log-write, log-sync     write the log's first unwritten block, sync the log
  flush P, sync-pages     write page P to its block, sync the pages
  mark-write, ctl-sync    write the log's synced end as its mark, sync the mark
  ckpt-begin, ckpt-block  begin a checkpoint, write its next block
  ckpt-publish            publish it once it is synced and acknowledged
  force                   log-write until all is written, and then those three
  crash old|new, crash N N ..
                          stop the standby and begin it again, over what its
                          devices keep: what was synced, what was written, or
                          these candidates of the blocks that have more
  ready                   end the recovery that a crash began
  publish, read P S       show readers what is acknowledged; what the published
                          commits left at slot S of page P
  adopt SEAL ..           go on with the history of another node, whose
                          takeovers were sealed there
  seal, undo, finish      seal the log, hold the next record of its tail, end
                          the takeover
  resolve T commit|rollback
                          then decide transaction T, which is in doubt
  takeover                drain, ready, force, seal, undo, force, drain and
                          finish
  fail log|control|pages K
                          make the K-th next call of that device fail
  show status|table|dirty|db|epochs, show page P, show log A
Writes standard output: for each line that is no record line what it answers.

Example:
  als sim < examples/first-path.als

Exit statuses: 0 done (a refused step is a line `refused N Name`, and the script
goes on), 2 a fault of the command line or `line N: bad line`, 3 a refused world
line or `als: refused N Name`.";

pub const SHIP_ABOUT: &str = "Serves a log file, or a node's log, to standbys";

pub const SHIP_HELP: &str =
    "Reads FILE whole, at most 2,147,483,648 bytes: a log text as `als make` writes it, of
which nothing is checked but its header. Waits at ADDR, a host and a port, for a
follower, and sends it the log from where it goes on to the end of FILE. A connection that
asks for no log within 5 s is passed over, and holds up nobody meanwhile.
Writes standard output: `sent=B`, the log bytes that it sent. With --explain, or on a
terminal, standard error says what was passed over, and up to where the follower has
acknowledged the log: no crash of it loses what is below.
With --keep it serves up to eight followers at once, for ever, a line for each session that came
to the end; what ends a session early is said on standard error. With --follow a session waits
at the end of FILE for it to grow; 44 where it shrank. With either FILE is read piece by piece,
and W frames are sent ahead of their acknowledgements.
The file has to stay the one that it was: where it shrank, was replaced or removed or can't be
read, standard error says so, and it ends with 44, with --keep too. One that is longer than the
largest log is served up to there.
With --dir in place of --log it serves the log of the node in the folder DIR, as far as no crash
can lose it, and tells the node's history: the takeovers before it. It holds DIR meanwhile. With
--keep it serves up to eight followers at once, W frames ahead of their acknowledgements, and
holds DIR while it serves any. --follow is of FILE alone.

Example:
  printf 'pages 4\\nu 1 0 0 - aa\\ncommit 1\\nend 1\\n' | als make > primary.log
  als ship --log primary.log --listen 127.0.0.1:7070

Exit statuses: 0 done, 2 a fault of the command line, 3 `als: refused N Name`:
  1   FILE has no header, or the follower has another database
  32  there was no memory for FILE
  37  W is not 1 to 64, or given without --keep, or --follow of FILE; no file was touched
  40  the follower holds more than there is
  41  what came is no frame of a follower
  42  the follower's log goes past the seal with which the history goes on
  43  the follower went away before the end
  44  FILE, ADDR, the network or standard output failed, FILE is too long, or the
      follower was silent, or a frame took, for longer than SECONDS
  48  the follower's history is no front of the one that is served
  With --dir also the faults of the files.";

pub const STANDBY_ABOUT: &str = "Follows a primary's log as the standby of a folder";

pub const STANDBY_HELP: &str =
    "Needs DIR, a folder that is there, for itself alone. Opens the database in it: log.blk,
control.blk and pages.blk. Where there is no control.blk, it lays out an empty database of
N pages with a log of B blocks of 512 bytes, once the primary has answered: nothing is written
before. A primary's DIR is opened once the node that took over from it has answered.
Redoes what was not redone, connects to ADDR, where `als ship` serves the primary's log,
and follows it: each piece is stored, synced, acknowledged and then redone, up to the end of
the log. After M megabytes of log (0: never), and however the session ends, the pages and a
checkpoint are put on the files. W threads redo pages beside the one that follows, and others
write pages and checkpoints; with 0 that one thread does all.
Writes standard output: `end=E ack=A`, where the held log ends, and up to where no crash
can lose it.
To follow on, run it again: it goes on where it was left, also after a crash.
With --keep it does so itself: after the end of the log, 43 or 44 it connects again, after a
pause of at most 5 s, and after any other refusal, of which standard error tells, after a pause
of 5 s to 60 s; once it follows, only 21, 29, 30, 31, 33, 34, 42, 48 and 50 end it. At its start it
waits for a DIR that another program has, for up to a minute. With --explain, or on a terminal,
standard error says once a minute at most that nothing comes; always, where DIR is not opened yet.
One session has an end where its log has: of `als ship` without --follow. At a live primary, or
at a standby with --listen, it goes on until one of the two goes away.
With --serve it answers over HTTP: GET /keys/P/S (a slot), /keys/P (a page), /status, /metrics and
/health, and POST /read {\"keys\":[[P,S],..]}: up to 600 slots, all after the same commits; /standby,
for load balancers, is as /health, and /primary is 503. Nothing is encrypted, and nobody is asked
who he is.
With --keep, --serve or --listen one thread redoes at least: --workers 0 is 1.
Before each session it asks ADDR, over a connection of its own, whether its log is the one that DIR
holds. A node that hangs up on that three times is refused with 43. With --uncompared it is followed
all the same, and standard error says so: compare `als verify` of both first. Nothing is asked where
DIR holds no record.
In front of each session it says the id of DIR, its file `id`, which is made at the first start. A
node hangs up on a second session of one id: of a DIR that is a copy, remove that file.
With --listen it serves what it has acknowledged to up to 8 standbys of its own, which follow it as
they would follow a primary; with --follower only those at these addresses.
With --forget-unreached it first forgets the takeovers that were sealed at the end of the log in
DIR or above it, of which DIR holds nothing, and says so on standard error. So it follows its old
primary again, where the node that took over is gone for good.

Example:
  mkdir standby
  als standby --dir standby --from 127.0.0.1:7070 --pages 4

Exit statuses: 0 done, 2 a fault of the command line, 3 `als: refused N Name`:
  2 to 16 a record of the primary may not follow: it is not held
  21  the database was taken over, and follows no more
  29  the log has no room for what comes next, which DIR lacks: als grow makes it longer; with the
      largest B als begin makes a new log
  30  DIR or a file of it failed, or another program has DIR; or control.blk is missing,
      but log.blk or pages.blk has data: nothing was touched
  32  there was no memory for what DIR holds: it may be run again
  34  DIR has a database of another number of pages, or a damaged one (1, 33 too)
  37  N is not 1 to 4,096, B not 1 to 4,194,304, W of --workers not 0 to 8, R not 1 to 8 or without
      --serve, W of --window not 1 to 64 or without --listen, or ADDRS no addresses or without
      --listen; no file was touched, and standard error names the option
  40, 41 what came is no frame that may come; 40 is also: the primary's log is shorter than that in
      DIR
  43  the primary went away, or does not say which log it has (see --uncompared); it goes away too
      where it has another number of pages than N, and where a standby with the id of DIR follows it
  44  nobody serves at ADDR, the network or standard output failed, or the primary was
      silent for longer than SECONDS: run it again
  42  the log in DIR goes past the takeover of the node that serves: the two parted there.
      `als rewind` takes DIR back to it. Standard error has the commits in DIR behind it: how many,
      and the first ten
  48  the takeovers of that node do not go on from those of DIR; see --forget-unreached
  50  that node has another log: what DIR holds is not a front of it, nor it of that. Nothing in
      DIR has changed: keep DIR, find which log is right (`als verify`, sha256=, of both), and
      follow that one with an empty folder, or with DIR once `als rewind` took it back to where
      both are the same";

pub const TAKEOVER_ABOUT: &str = "Makes a primary of the standby of a folder";

pub const TAKEOVER_HELP: &str =
    "Needs DIR, the folder of a standby that does not run. See first that the old primary
writes no more: nothing here can do that. A primary's own folder begins its next epoch, of 32.
Of several standbys the one of the greatest rank holds all that clients were answered. `als status`
prints it, as rank=SEAL/END: the greater SEAL counts, and of one SEAL the greater END. Each PEER,
up to eight, is asked for its rank first: one that serves its log (`als primary` or `als standby`
with --listen, `als ship --dir --keep`) at its address, one that does not run in its folder. Where
one is above, or does not answer within 10 s, DIR is not touched. Name all others: without PEER
nothing is compared, and standard error says so.
Redoes what was not redone, seals the log at its end, undoes each transaction that is neither
committed nor in doubt, and ends the takeover. From then on the folder follows no primary.
Where DIR adopted a takeover that its log never reached, that takeover is dropped first, and a line
on standard error says so.
Writes standard output: `end=E`, where the log ends, and a line `P/S VALUE` for each record
of the database, or `empty`; standard error: a line for each transaction in doubt, which was
prepared and neither committed nor rolled back. Its updates stay until `als resolve` decides.
It may be run again after a crash: it goes on, and ends with the same log.

Example:
  als takeover standby --peer 10.0.0.3:7070 --peer 10.0.0.4:7070

Exit statuses: 0 done, 2 a fault of the command line, 3 `als: refused N Name`:
  22  a PEER holds more, which standard error names: DIR was not touched
  30  DIR or a file of it failed, it has no database, or another program has DIR
  32  there was no memory for what DIR holds: it may be run again
  33, 34, 1 to 16 a file of it is damaged
  37  log.blk is longer than the largest log
  49  the history has no room for one more: where seals at the end of the log are of takeovers that
      DIR never reached, `als standby --forget-unreached` drops them; --explain says what else
  44  a PEER did not answer, which standard error names: DIR was not touched; else standard output
      failed: DIR was taken over";

pub const NEW_ABOUT: &str = "Lays out the database of a new primary";

pub const NEW_HELP: &str =
    "Needs DIR, a folder that is there and has no database, for itself alone. Lays out an empty
database of N pages with a log of B blocks of 512 bytes, and a file `role`, which says that the
folder is a primary's. `als primary` and `als commit` make no database: a folder that is empty
because its disk is not there, or because it was emptied, is refused by them (30).
Killed at any time it leaves the whole database, or a folder without one: run it again, it takes
away what was left. Run it as the user that the primary runs as: it makes the files.
Standbys need no such command: `als standby` lays its own database out.
Writes standard output: `pages=N capacity=C`, with C, the bytes that the log takes at most.

Example:
  mkdir a
  als new a --pages 64 --log-blocks 1048576
  als primary --dir a --serve 127.0.0.1:7071

Exit statuses: 0 done, 2 a fault of the command line, 3 `als: refused N Name`:
  30  DIR or a file of it failed, its disk has no room, another program has DIR, or it has a
      database; or control.blk is missing, but log.blk or pages.blk has data: then nothing was
      touched
  32  there was no memory for it: it may be run again
  37  N is not 1 to 4,096, or B not 1 to 4,194,304; nothing was touched
  44  standard output failed: the database is laid out";

pub const COMMIT_ABOUT: &str = "Writes transactions into the log of a primary";

pub const COMMIT_HELP: &str =
    "Needs DIR, the folder of a primary, for itself alone: one that `als new` laid out, or that
`als takeover` made a primary. The file `role` in it says that it is a primary's. It makes no
database. With --pages it is refused where the database has another number of pages (34), with
--log-blocks where its log has fewer blocks (37).
Reads standard input: a transaction a line, in JSON:
  {\"if\":[{\"key\":[P,S],\"is\":\"ab\"},{\"key\":[P,S],\"unchanged_since\":L}],
   \"set\":[{\"key\":[P,S],\"to\":\"cd\"},{\"key\":[P,S],\"to\":null}]}
on one line. A key is page P, slot S (0 to 14); a value is up to 31 bytes in hexadecimal, null is
none. All comparisons of `if` hold and all of `set` is written, or nothing is; `if` may be left
out. `unchanged_since` asks that no commit above LSN L wrote the key, and that L is below the log's
end: after a start, and after a decision to commit, each key counts as written by the last commit.
`if` and `set` have up to 600 each.
With \"prepare\":true beside, the transaction is prepared: it holds its keys, and survives crashes and
takeovers, until a line {\"decide\":{\"trans\":T,\"commit\":true}} commits it, or one with false rolls it back.
Writes standard output: for each line, in order, once it is durable,
  lsn=L trans=T           it committed; L is its commit record, T its number
  prepared trans=T lsn=L  it is in doubt; L is its prepare record
  committed trans=T lsn=L, rolled back trans=T lsn=L, not in doubt trans=T  of a decision
  not as asked [P,S]=VALUE ..  the first eight comparisons that fail, and what each key has
                          (`-` none, `.` the empty value)
  refused N Name          nothing was written; the next line may be: 13 another transaction in
                          doubt holds a key, 15 or 45 there are too many transactions, 29 the log
                          has no room (`als grow`), 32 there was no memory
A line that is no transaction ends it: `line N: ` and what is wrong go to standard error; the
lines in front of it stay written. With --skip-bad it goes on.
One force of the log makes a line durable, or L lines with --batch.
At its end the pages and a checkpoint are put on the files. `als ship --dir DIR` serves the log.

Example:
  mkdir a
  als new a --pages 4
  echo '{\"set\":[{\"key\":[0,0],\"to\":\"aa\"}]}' | als commit --dir a

Exit statuses: 0 done, also where lines were refused (29 too): their lines say so; 2 a fault of the
command line or a line that is no transaction, 3 `als: refused N Name`:
  21  a takeover of DIR is not at its end: `als takeover` goes on with it
  30  DIR or a file of it failed, or another program has DIR; it has no database: `als new` lays
      one out; or control.blk is missing, but log.blk or pages.blk has data. Nothing was touched
  32  there was no memory for what DIR holds: it may be run again
  33, 34, 1 to 16 a file of it is damaged; 34 also: the database has another number of pages than N
  37  N is not 1 to 4,096, B not 1 to 4,194,304, or L not 1 to 1,000; or the log has fewer blocks
      than B. Nothing was touched
  44  standard input or output failed
  46  DIR is the folder of a standby: `als takeover` first, where its primary is gone";

pub const PRIMARY_ABOUT: &str = "Serves a primary: commits and reads over HTTP";

pub const PRIMARY_HELP: &str =
    "Needs DIR, the folder of a primary, for itself alone: one that `als new` laid out, or that
`als takeover` made a primary. It makes no database. With --pages it is refused where the database
has another number of pages (34), with --log-blocks where its log has fewer blocks (37).
Redoes what was not redone, undoes what a crash left in mid-transaction, and answers over HTTP:
  POST /commit            a transaction, or an array of up to 64, each on its own:
    {\"if\":[{\"key\":[P,S],\"is\":\"ab\"},{\"key\":[P,S],\"unchanged_since\":L}],
     \"set\":[{\"key\":[P,S],\"to\":\"cd\"},{\"key\":[P,S],\"to\":null}]}
    A key is page P, slot S (0 to 14); a value is up to 31 bytes in hexadecimal, null is none.
    All comparisons hold and all is set, or nothing is; `if` may be left out. Each has up to 600.
    `unchanged_since` is as of `als commit`.
    200 {\"trans\":T,\"lsn\":L}: it is durable. 409 {\"not_as_asked\":[..]}: the first eight
    comparisons that do not hold; {\"held_by\":T}: transaction T, which is in doubt, holds a key.
    400, 413: no transaction. 408, 503: nothing was written, ask again; 408: the request was not
    whole after 5 s. 504: it may be written or not. 507: the log has no room.
    An array is answered 200 and an array: for each transaction, in order, the same object with
    its own \"status\":200, 409, .. in front. One may be refused, and the next one be committed.
  POST /prepare           the same, but it is in doubt, and holds its keys, until it is decided
  POST /decide            {\"trans\":T,\"commit\":true} commits T, false rolls it back; 404: not in doubt
  GET /in-doubt           [{\"trans\":T,\"lsn\":L}]: the transactions in doubt
  GET /keys/P/S, /keys/P, /status, /metrics, /health, POST /read: as `als standby --serve` does;
                          /primary, for load balancers: 200 while commits are taken, and confirmed,
                          else 503; /standby: 503
It writes what waits as a group, forces the log once, and then answers all of the group. It ends
only where a file, or memory again and again, fails; a kill at any time loses nothing that was
answered 200: run it again.
Standard error says `primary of DIR serves at ADDR: epoch E, LSN L` once it serves, beside that
where nothing was ever committed (then /status has \"new\":true), and once an hour where the log has
used nine tenths of its device.
Without --token-file ADDR has to be of the loopback. FILE has mode 0600 and at least 16 bytes;
a request to commit brings them, without a last line end, as `Authorization: Bearer TOKEN` (401
without, 403 with others). Nothing is encrypted. A transaction that is not begun after SECONDS is
not written (503).
With --listen it serves its log to up to 8 standbys at once, each as far as the log is durable
here: `als standby --from HOST:PORT`. With --sync K a commit is answered, and readers see it, once
K standbys of different folders have acknowledged it. After a start nothing is read (503) before K
have acknowledged what the log held then. Where fewer are there it waits, and
never answers with less: a transaction that is not begun after SECONDS is 503, one that was is
504 with its LSN. /health and /primary are 503 then, and before K have been seen after a start;
standard error says so once a minute. It asks them once a second; keys are read (else 503) while K
have answered what it asked at most the SECONDS of --read-for ago, so that a primary that was
deposed or cut off answers nothing older than that. With --follower only standbys at these addresses may
connect, and only they count; without it whoever connects does. `als ship --dir DIR` serves the
log while it does not run.

Example:
  mkdir a
  als new a --pages 64
  als primary --dir a --serve 127.0.0.1:7071 &
  curl -s -X POST localhost:7071/commit -d '{\"set\":[{\"key\":[1,3],\"to\":\"ab\"}]}'

Exit statuses: 2 a fault of the command line, of FILE or of ADDR without it, 3
`als: refused N Name`:
  21  a takeover of DIR is not at its end: `als takeover` goes on with it
  30  DIR or a file of it failed, or another program has DIR; it has no database: `als new` lays
      one out; or control.blk is missing, but log.blk or pages.blk has data. Nothing was touched
  32  there was no memory for what DIR holds: it may be run again
  33, 34, 1 to 16 a file of it is damaged; 34 also: the database has another number of pages than N
  37  N is not 1 to 4,096, B not 1 to 4,194,304, C not 1 to 64, the SECONDS of --commit-timeout or
      --read-for not 1 to 3,600 or those of --timeout over 3,600, K over 8, W not 1 to 64, ADDRS no addresses, or K,
      W or ADDRS given without --listen, --read-for without --sync; or the log has fewer blocks than B. Nothing was touched;
      standard error names the option
  44  ADDR or HOST:PORT can't be listened at
  46  DIR is the folder of a standby: `als takeover` first, where its primary is gone";

pub const RESOLVE_ABOUT: &str = "Decides a transaction in doubt after a takeover";

pub const RESOLVE_HELP: &str =
    "Needs DIR, the folder of a primary that `als takeover` made, in which transaction T is in
doubt: it was prepared, and its commit or rollback never came. Ask the coordinator of T how it
decided; nothing here can know that. Then give that decision: it is final.
Redoes what was not redone, commits or rolls back T, and makes that stable. A rollback undoes
the updates of T.
Writes standard output: `end=E`, where the log then ends, and a line `P/S VALUE` for each
record of the database, or `empty`.
After a crash T is decided, or in doubt as before: run it again, 47 says that it was decided.

Example:
  als resolve --dir standby --trans 7 --commit

Exit statuses: 0 done, 2 a fault of the command line, 3 `als: refused N Name`:
  30  DIR or a file of it failed, it has no database, or another program has DIR
  32  there was no memory for what DIR holds: it may be run again
  33, 34, 1 to 16 a file of it is damaged
  46  DIR was not taken over: `als takeover` does that; a primary's folder decides by POST /decide,
      or by a line {\"decide\":..} of `als commit`
  44  standard output failed: T is decided
  47  T is not in doubt";

pub const REBUILD_PAGES_ABOUT: &str = "Lays the pages of a folder out anew from its log";

pub const REBUILD_PAGES_HELP: &str =
    "Needs DIR, the folder of a node that does not run: a standby or a primary. Its log holds all that
its pages do, so a pages.blk that is lost, damaged or an old one is no loss: it need not be there.
Reads the log first; where that or control.blk is refused, nothing is written. Then lays pages.new
out, drops the checkpoint, gives pages.new the name pages.blk, redoes the whole log, and puts the
pages and a checkpoint on the files. Log, phase and history stay. Takes as long as the redo of
the whole log. Where pages.blk is a link, the link goes away and the pages stand in DIR.
Writes standard output: `end=E ack=A`, where the log ends, and up to where no crash can lose it.
After a crash run it again: it begins anew.

Example:
  als rebuild-pages --dir standby

Exit statuses: 0 done, 2 a fault of the command line, 3 `als: refused N Name`:
  30  DIR or log.blk or control.blk failed, or another program has DIR
  29  the log leaves no room for what a takeover would append
  34, 1 to 16 log.blk or control.blk is damaged; nothing was written
  37  log.blk is longer than the largest log
  44  standard output failed: the pages are laid out";

pub const DUMP_ABOUT: &str = "Prints the records of a log file or of a node";

pub const DUMP_HELP: &str =
    "Reads PATH and changes nothing: a log file as `als ship` serves it, or the folder of a node
that does not run, of which the log is read as far as it is acknowledged.
Writes standard output: a line for each record that all options admit.
  L update trans=T P/S BEFORE AFTER prev=V
  L clr trans=T P/S AFTER prev=V next=N
  L commit trans=T prev=V         (also rollback, end, prepare)
  L begin_chkpt, L end_chkpt prev=V
Where a record is not sound, the lines of those in front of it are written, and then it is
refused: `als verify` tells where.
With --commits a line for each commit in place of that: `L trans=T P/S P/S ..`, the LSN at which
its commit record begins, and the keys that it wrote. `als show PATH --at L` is what was there in
front of that commit, and `--at L+28` what is there behind it.

Example:
  als dump standby --trans 2 --from 1024

Exit statuses: 0 done, 2 a fault of the command line, 3 `als: refused N Name`.";

pub const VERIFY_ABOUT: &str = "Tells whether a log file or a node is sound";

pub const VERIFY_HELP: &str =
    "Reads PATH and changes nothing: a log file, or the folder of a node that does not run. The log.blk
of a folder is no log file: it has zeros behind its log.
Of a log each record has to be one, and has to follow those in front of it. Of a folder the
control block, the checkpoint and the pages are read too, as a restart does, and each page is
compared with what the log makes of it: `als rebuild-pages` mends one that differs (33).
Writes standard output: `sound records=R end=E sha256=X`, or `unsound lsn=L N Name`: where the
first record that is not sound begins, and why. What is wrong in no record has lsn=0. X is the
SHA-256 of the log text: two nodes of the same end and X hold the same log.

Example:
  als verify primary.log

Exit statuses: 0 sound, 2 a fault of the command line, 3 unsound, or `als: refused N Name`.";

pub const STATUS_ABOUT: &str = "Prints what the folder of a node holds";

pub const STATUS_HELP: &str =
    "Reads DIR, the folder of a node that does not run, and changes nothing: of one that runs, ask
it for /status.
Writes standard output: a line
  phase=F pages=N end=E ack=A checkpoint=Q behind=B transactions=T capacity=C left=L
with F Following (a primary's too, which has a line `role`), Sealed or Primary (taken over, and not
written since); E, where the held log ends; A, up to where no crash can lose it; Q, where the log
ended at the last checkpoint, 0 without one; B, the bytes of log that a restart redoes; C, the bytes
that the log takes at most; and L, those that are left, with the room that is kept for a takeover;
and at the end of the line rank=SEAL/A: the last takeover's seal at or below A, 0 without one. Of
several nodes of a database only the one of the greatest rank is to be taken over.
After takeovers a line `epoch N seals S ..`; of a primary's folder a line `role primary epoch=N`.
Then a line for each unended transaction, in rising TransID:
  trans T STATE last=L undo=U      (STATE active, prepared, committed or rollback)
The whole log and the checkpoint are read as a restart reads them, in a copy in memory.
With --at it reads the log alone, which DIR may be a file of (a folder has to have its other files
all the same), up to the last record that ends at or below LSN, and writes a line
  pages=N end=E greatest=G commits=C last=L transactions=T doubts=D
with E, where that record ends; G, the greatest TransID; C, the commits, and L, the LSN of the last
one; T, the unended transactions, and D, those of them that are in doubt. Then a line for each.
A commit record that begins at L, as `als dump --commits` has it, ends at L + 28.

Example:
  als status standby
  als status standby --at 4096

Exit statuses: 0 done, 2 a fault of the command line, 3 `als: refused N Name`:
  30  DIR or a file of it failed, it has no database, or a node runs there: ask that one
  33, 34, 1 to 16 a file of it is damaged: `als verify` tells where
  37  with --at: LSN is within the header or past the end of the log
  43  with --at: a log file ends within a record
  44  with --at: a log file can't be read; or standard output failed";

pub const CUT_ABOUT: &str = "Writes the log of a file or of a node up to an LSN";

pub const CUT_HELP: &str =
    "Reads PATH and changes nothing: a log file as `als ship` serves it, or the folder of a node
that does not run, of which the log is read as far as it is acknowledged.
Writes the log text to standard output: its header and each whole record that ends at or below
LSN, or that stands in front of the commit record of T. So a damaged database is taken back to a
moment: `als restore` the text into an empty folder, and take over. Nothing is damaged by a wrong
LSN: the text is another file.
`als dump PATH --commits` prints for each commit L, where its record begins, its transaction and
its keys: the text has the commit from --at L+28 on.

Example:
  als cut a --before-commit 7 > earlier.log
  mkdir b
  als restore earlier.log --dir b

Exit statuses: 0 done, 2 a fault of the command line, 3 `als: refused N Name`; then the output is
of no use:
  30  PATH is a folder that failed, has no database, or is in use
  33, 34, 1 to 16 a file of it is damaged up to there: `als verify` tells where
  37  LSN is within the header or past the end of the log, or T has no commit: standard error
      says which
  43  the file ends within a record
  44  the file can't be read, or standard output failed";

pub const SHOW_ABOUT: &str = "Prints all values of a log file or of a node";

pub const SHOW_HELP: &str =
    "Reads PATH and changes nothing: a log file as `als ship` serves it, or the folder of a node
that does not run, of which the log is read as far as it is acknowledged.
Writes standard output: a line `P/S VALUE` for each key that has a value, by the commits that end
at or below LSN (without --at: all), in the order of pages and slots; `empty` where none has. A
commit record that begins at L, as `als dump --commits` has it, ends at L + 28.

Example:
  als show a --at 4096

Exit statuses: 0 done, 2 a fault of the command line, 3 `als: refused N Name`, as `als cut` has
them.";

pub const BEGIN_ABOUT: &str = "Writes a new generation of a log that is nearly full";

pub const BEGIN_HELP: &str =
    "A log takes 2 GiB at most, and what is written to it stays. Before it is full, begin a new one:
stop the primary, write the new generation to a file, ship that to an empty folder, take that over,
and let it serve. Standbys follow it with empty folders.
Reads PATH and changes nothing: a log file as `als ship` serves it, or the folder of a node
that does not run, of which the log is read as far as it is acknowledged.
Writes the new log text to standard output: its header, and for each page with a value one
transaction, which sets all values of that page. Readers see of it what they see of PATH. LSNs and
commits count anew, so LSNs that clients keep mean nothing there. TransIDs go on: where the greatest
of PATH is above all of these, an empty transaction of that number is the last. So a decision that
comes late decides no other transaction. Behind the last TransID, 4294967295, they begin anew.
A transaction in doubt is in doubt there too, under its number and with what it wrote: decide it in
the new primary. Behind the last TransID decide it first, since they go on above its number.
What has neither committed nor prepared is left out. Take the new folder over only where `end=` of
its standby is the length of new.log.

Example:
  als begin --from a > new.log
  als ship --log new.log --listen 127.0.0.1:7070 &
  mkdir b
  als standby --dir b --from 127.0.0.1:7070 --pages 4 --log-blocks 4194304
  als takeover --dir b
  als primary --dir b --serve 127.0.0.1:7071 --listen 127.0.0.1:7070

Exit statuses: 0 done, 2 a fault of the command line, 3 `als: refused N Name`; then the output is
of no use:
  13  this transaction is in doubt and can't be carried on: its number is not above the page
      count, or 256 are in doubt. Nothing was written; decide it first
  30  PATH is a folder that failed, has no database, or is in use
  34, 1 to 16 a file of it is damaged: `als verify` tells where
  43  the file ends within a record
  44  the file can't be read, or standard output failed";

pub const REWIND_ABOUT: &str = "Takes a node back to an LSN of its own log";

pub const REWIND_HELP: &str =
    "For a node that `als standby` refused with 42: its log goes past the takeover of the node that
it is to follow, as that of a primary does which came back; or with 50, where the other log is the
right one. Behind `als rewind` it follows that node: its pages are laid out anew from its own log,
and nothing comes over the network.
Needs DIR, the folder of a node that does not run, for itself alone. LSN is the seal that 42 names,
or any lower end of a record: for 50 the last one up to which both logs are the same.
Says on standard error how many commits the log has behind LSN, and which the first ten are. Where
there are any, it goes on only with --lose-commits N, N being that number.
Then copies what the log has behind LSN into a file beside DIR, DIR.past-LSN-to-END.log, and syncs
it: where LSN is the seal, the commits in it were never on the other node. `als cut DIR --at LSN`,
and then this file, are the log as it was. Then lays the pages out anew, takes the file `role` away,
and writes a new control block: the node follows, its log ends at LSN, and takeovers sealed at LSN
or above are none of its own.
Writes standard output: `end=E ack=A past=B`: where the log ends, up to where no crash can lose it,
and how many bytes were kept.
Killed at any time it leaves a node: run it again, with the same LSN. Run it as the owner of DIR: it
makes new files there.

Example:
  als rewind --dir a --to 4096
  als standby --dir a --from 127.0.0.1:7070 --pages 4

Exit statuses: 0 done, 2 a fault of the command line, 3 `als: refused N Name`:
  29  the log up to LSN has no room for what a takeover would append: `als grow` first
  30  DIR or a file of it failed, it has no database, or it is in use
  34, 1 to 16 log.blk or control.blk is damaged below LSN; nothing was written
  37  LSN is within the header or past the end, or no record ends there: standard error has the
      nearest end below it; or N is not how many commits are behind LSN. Nothing was written
  44  the file beside DIR can't be written, its disk has no room, or it is there with something
      else: the node is as it was; or standard output failed: the node was taken back. Standard
      error says which";

pub const GROW_ABOUT: &str = "Gives a node's log device more blocks";

pub const GROW_HELP: &str =
    "Needs DIR, the folder of a node that does not run, for itself alone. Writes zeros behind
the last block of log.blk, and syncs it, until it has B blocks of 512 bytes. Killed at any time
it leaves a node, maybe with some more blocks than before: run it again. Of what the files hold
only this is looked at: that log.blk was not cut below what is acknowledged. Else see `als verify`.

Example:
  als grow --dir standby --log-blocks 1048576

Exit statuses: 0 done, 2 a fault of the command line, 3 `als: refused N Name`:
  30  DIR or a file of it failed, its disk has no room, it has no database, or it is in use
  34  log.blk was cut below what is acknowledged (30 where it is empty): zeros would hide that
  37  the log has more than B blocks (standard error says how many), or B is over 4,194,304";

pub const GET_ABOUT: &str = "Prints what the committed transactions left at a key";

pub const GET_HELP: &str =
    "Reads DIR, the folder of a node that does not run, and changes nothing: recovers the node in a
copy in memory, and reads slot S of page P there. Of one that runs, ask it for /keys/P/S.
Writes standard output: a line `VALUE commits=C lsn=L`: the value in lower case hexadecimal,
`.` for the empty value, `-` where the key has none or lies outside the database; how many
commits were counted, and the LSN of the last one.
With --at it reads the log alone, which DIR may be a file of, and counts the commits that end at
or below LSN; a folder has to have its other files all the same. The lsn= of a commit is where its
record begins: it counts from --at L+28 on.

Example:
  als get standby 0 3
  als get standby 0 3 --at 4096

Exit statuses: 0 done, 2 a fault of the command line, 3 `als: refused N Name`:
  30  DIR or a file of it failed, it has no database, or a node runs there: ask that one
  33, 34, 1 to 16 a file of it is damaged: `als verify` tells where
  37  with --at: LSN is within the header or past the end of the log
  43  with --at: a log file ends within a record
  44  with --at: a log file can't be read; or standard output failed";
