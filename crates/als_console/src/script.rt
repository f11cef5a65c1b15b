/// What the page does, in JavaScript.
pub const SCRIPT: &str = "'use strict';
// First and last number, name, what to do.
const REFUSED = [
  [13, 13, 'RecordHeld', 'A transaction in doubt holds the key. Decide it.'],
  [15, 15, 'TooManyTransactions', '256 are in doubt. Decide them.'],
  [45, 45, 'NumbersSpent', 'The last TransID is used. als begin makes a new log.'],
  [47, 47, 'NotInDoubt', 'It was never prepared, or is decided.'],
];
const FAULTS = [
  [1, 1, 'BadHeader', 'The folder is damaged, or the node that sends has another page count. Mend --pages; else rebuild.'],
  [2, 7, 'no record', 'No record came. als verify the primary: if it is sound, --keep asks again; else consider a takeover.'],
  [8, 16, 'may not follow', 'A record may not follow this log: the primary is another one, or was restored. Compare als dump of both.'],
  [21, 21, 'Sealed', 'The folder was taken over: it is a primary. Start no standby there.'],
  [29, 29, 'LogFull', 'log.blk is full. als grow makes it longer; at 2 GiB als begin makes a new log.'],
  [30, 30, 'Device', 'A file or its disk failed, or another als uses the folder. --explain names the cause.'],
  [32, 32, 'Memory', 'An allocation failed; nothing is damaged. Give the machine more, and start again.'],
  [33, 34, 'damaged', 'A file of the folder is damaged, or --pages is not its own. als verify says more; als rebuild-pages makes pages.blk anew.'],
  [40, 41, 'Gap or BadFrame', 'No frame that may come: another version of als, or a file that was truncated or replaced.'],
  [42, 42, 'Diverged', 'The node that sends was taken over, and this log parted from it. als rewind takes it back.'],
  [43, 44, 'connection lost', 'Nobody sends there, or was silent for too long. With --keep it asks again.'],
  [48, 48, 'OtherEpoch', 'The node that sends is of another epoch. Follow the node that took over last, or rebuild.'],
  [50, 50, 'OtherLog', 'The node that sends has another log. Keep the folder, and compare sha256= of als verify of both.'],
  [0, 999, 'refused', 'Start it again. If it comes again, see the disk, and then rebuild.'],
];
const SPAN = 300, BEAT = 1000;
const at = id => document.getElementById(id);
const put = (id, text) => { const e = at(id); if (e.textContent !== text) e.textContent = text; };
const hide = (of, yes) => { for (const e of document.querySelectorAll(of)) e.hidden = yes; };
const whole = n => n?.toLocaleString('en-US') ?? '-';
const number = n => n >= 100 ? whole(Math.round(n)) : String(Math.round(n * 10) / 10);
const bytes = n => n == null ? '-' : n < 1e3 ? `${n} B` : n < 1e6 ? `${(n / 1e3).toFixed(1)} KB`
  : n < 1e9 ? `${(n / 1e6).toFixed(1)} MB` : `${(n / 1e9).toFixed(2)} GB`;
const span = s => s == null ? '-' : s < 60 ? `${s} s` : s < 3600 ? `${Math.floor(s / 60)} min`
  : s < 172800 ? `${Math.floor(s / 3600)} h` : `${Math.floor(s / 86400)} d`;
const ask = path => fetch(path, { cache: 'no-store', signal: AbortSignal.timeout(4000) });

let samples = [], before = null, turn = 0;

// Where a count fell, it began again.
function sample(s) {
  const now = performance.now() / 1000, count = s.transactions ?? s.commits;
  let rate = null;
  if (before && count != null && count >= before.count) rate = (count - before.count) / (now - before.now);
  before = count == null ? null : { now, count };
  const lag = s.sync != null ? Math.max(0, ...s.followers.map(f => f.behind)) : s.end - s.acknowledged;
  samples.push({ now, rate, lag, redo: s.pending });
}

// 1, 2, 5, 10, 20 and on.
function ceiling(n) {
  const unit = 10 ** Math.floor(Math.log10(n));
  return [1, 2, 5, 10].map(k => k * unit).find(m => m >= n);
}

function draw(id, show) {
  const svg = at(id), now = performance.now() / 1000;
  const w = svg.clientWidth || 300, h = svg.clientHeight || 136, top = 16, low = h - 18;
  const known = samples.map(s => s[id]).filter(v => v != null);
  const most = ceiling(Math.max(1, ...known)), last = samples.at(-1)?.[id];
  let line = '', drawn = false;
  for (const s of samples) {
    if (s[id] == null) { drawn = false; continue; }
    const x = w - (now - s.now) / SPAN * w, y = low - s[id] / most * (low - top);
    line += `${drawn ? 'L' : 'M'}${x.toFixed(1)} ${y.toFixed(1)}`;
    drawn = true;
  }
  const node = (name, more) => {
    const e = document.createElementNS('http://www.w3.org/2000/svg', name);
    for (const k in more) k === 'text' ? e.textContent = more[k] : e.setAttribute(k, more[k]);
    return e;
  };
  svg.setAttribute('viewBox', `0 0 ${w} ${h}`);
  svg.setAttribute('aria-label', `now ${last == null ? 'unknown' : show(last)}, at most ${show(Math.max(0, ...known))} in five minutes`);
  svg.replaceChildren(
    node('line', { x1: 0, x2: w, y1: top, y2: top }), node('line', { x1: 0, x2: w, y1: low, y2: low }),
    node('path', { d: line }),
    node('text', { x: 0, y: 11, text: show(most) }),
    node('text', { x: 0, y: h - 4, text: '5 min ago' }), node('text', { x: w, y: h - 4, class: 'end', text: 'now' }));
  put(`${id}-now`, last == null ? '-' : show(last));
}

function followers(s) {
  put('sync', s.sync ? `A commit is answered once ${s.sync} of them ${s.sync > 1 ? 'have' : 'has'} acknowledged it.`
    : s.sync == null ? '' : 'A commit is answered without them.');
  const rows = s.followers.map(f => {
    const row = document.createElement('tr');
    row.setAttribute('role', 'row');
    const cell = (name, text, label, late) => {
      const e = row.appendChild(document.createElement(name));
      e.textContent = text;
      if (label) { e.dataset.name = label; e.setAttribute('role', 'cell'); }
      if (late) e.className = 'late';
      return e;
    };
    cell('th', f.counts === false ? `${f.address} (not counted)` : f.address).scope = 'row';
    cell('td', whole(f.acknowledged), 'acknowledged');
    cell('td', bytes(f.behind), 'behind');
    cell('td', whole(f.seconds_behind), 'seconds behind', f.seconds_behind > 10);
    cell('td', span(f.connected), 'connected');
    return row;
  });
  if (!rows.length) {
    const row = document.createElement('tr'), cell = row.appendChild(document.createElement('td'));
    cell.colSpan = 5;
    cell.className = 'nobody';
    cell.textContent = 'nobody follows';
    rows.push(row);
  }
  at('followers').replaceChildren(...rows);
}

function show(s, well) {
  const role = ['sealed', 'primary', 'committing', 'unconfirmed'].includes(s.state) ? 'primary' : 'standby';
  const state = s.state === 'unconfirmed' ? 'waiting for followers' : s.state;
  put('role', role);
  put('state', `${state}, ${well ? 'healthy' : 'not healthy'}`);
  document.title = `${role}: ${state}`;
  document.body.dataset.health = well ? 'well' : 'ill';
  put('acknowledged', whole(s.acknowledged));
  put('end', whole(s.end));
  put('commits', s.commits == null ? 'warming' : whole(s.commits));
  put('pending', whole(s.pending));
  put('leases', whole(s.leases));
  put('frame', s.seconds_since_last_frame == null ? '-' : `${span(s.seconds_since_last_frame)} ago`);
  put('left', s.left == null ? '-' : `${bytes(s.left)} of ${bytes(s.capacity)}, ${whole(s.takeovers_left)} takeovers`);
  at('room').hidden = s.left == null;
  if (s.left != null) at('room').value = s.left / s.capacity;
  const leads = s.sync != null;
  put('lag-name', leads ? 'lag of the last follower' : 'held, not acknowledged');
  hide('.primary', !leads);
  hide('.standby', leads);
  hide('#following', !s.followers);
  if (s.refused != null) blame(s.last_refusal, REFUSED, 'Last refused commit', `${whole(s.refused)} refused so far`,
    s.refused ? 'without a number' : 'none');
  if (s.followers) followers(s);
  if (leads) {
    put('transactions', `${whole(s.transactions)}, ${whole(s.transactions_left)} left`);
    put('group', s.groups ? number(s.transactions / s.groups) : '-');
    put('force', s.groups ? `${number(s.force_microseconds / s.groups / 1000)} ms` : '-');
  }
}

function blame(last, own, head, count, none) {
  const f = last == null ? null : own.concat(FAULTS).find(f => f[0] <= last && last <= f[1]);
  put('fault-head', head);
  put('fault', `${f ? `${last} ${f[2]}` : none}: ${count}`);
  put('advice', f ? f[3] : '');
}

function more(text) {
  const of = pattern => text.match(pattern)?.[1];
  put('epoch', of(/epoch=.([0-9]+)/) ?? '-');
  put('version', of(/version=.([0-9.]+)/) ?? '-');
  if (of(/^(als_refused_total) /m)) return;
  const ended = Number(of(/^als_session_failures_total ([0-9]+)/m) ?? 0);
  blame(of(/^als_session_last_fault ([0-9]+)/m), [], 'Last session ended by a refusal', `${whole(ended)} ended so far`, 'none');
}

function draw_all() {
  draw('lag', bytes);
  draw('rate', number);
  draw('redo', whole);
}

async function ask_all() {
  const begun = performance.now();
  try {
    const status = await (await ask('/status')).json();
    const health = await ask('/health');
    await health.text();
    sample(status);
    show(status, health.ok);
    if (turn++ % 5 === 0) more(await (await ask('/metrics')).text());
    put('asked', `as of ${new Date().toLocaleTimeString('en-GB')}`);
  } catch (e) {
    before = null;
    samples.push({ now: begun / 1000, rate: null, lag: null, redo: null });
    put('state', 'no answer');
    document.title = 'als: no answer';
    document.body.dataset.health = 'unknown';
  }
  const oldest = performance.now() / 1000 - SPAN;
  samples = samples.filter(s => s.now >= oldest);
  draw_all();
  setTimeout(ask_all, Math.max(100, BEAT - (performance.now() - begun)));
}
addEventListener('resize', draw_all);
put('host', location.host);
ask_all();
";
