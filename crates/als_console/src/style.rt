/// How the page looks, in CSS.
pub const STYLE: &str = ":root {
  color-scheme: light dark;
  --ground: #f7f7f5; --sheet: #fff; --ink: #1c1d1f; --soft: #5d6167; --line: #dcdcd8;
  --plot: #2f5d8a; --unknown: #6b7076; --well: #1d7a46; --ill: #b3261e;
  --health: var(--unknown);
}
@media (prefers-color-scheme: dark) {
  :root {
    --ground: #141517; --sheet: #1c1e21; --ink: #e8e8e6; --soft: #a0a5ab; --line: #34373b;
    --plot: #8ab4dc; --unknown: #9aa0a6; --well: #5fc48d; --ill: #ff8a80;
  }
}
* { box-sizing: border-box; }
body {
  margin: 0 auto; max-width: 76rem; padding: 0 clamp(.75rem, 3vw, 2rem) 1rem;
  background: var(--ground); color: var(--ink);
  font: 15px/1.45 system-ui, sans-serif; font-variant-numeric: tabular-nums;
}
[data-health='well'] { --health: var(--well); }
[data-health='ill'] { --health: var(--ill); }
[data-health='unknown'] main { opacity: .6; }
a { color: inherit; }
:focus-visible { outline: 3px solid var(--plot); outline-offset: 2px; }
.skip { position: absolute; left: -99rem; }
.skip:focus { left: .5rem; top: .5rem; padding: .25rem .5rem; background: var(--sheet); }
header {
  display: flex; flex-wrap: wrap; align-items: end; gap: .5rem 2rem;
  padding: 1.25rem 0 1rem; border-bottom: 4px solid var(--health);
}
.who { flex: 1 1 14rem; }
h1 { margin: 0; font-size: clamp(2.25rem, 8vw, 3.5rem); line-height: 1; letter-spacing: -.03em; }
#state { margin: .4rem 0 0; font-weight: 600; color: var(--health); }
h2 { margin: 1.25rem 0 .5rem; font-size: .95rem; font-weight: 600; }
dl, dd, figure { margin: 0; }
dt, figcaption, .note, footer, th { color: var(--soft); font-size: .82rem; font-weight: 400; }
.row { display: flex; flex-wrap: wrap; gap: .25rem 1.5rem; }
.figures, .plots figure, .scroll, #fault { background: var(--sheet); border: 1px solid var(--line); border-radius: 6px; }
.figures { display: grid; grid-template-columns: repeat(auto-fill, minmax(7.5rem, 1fr)); gap: .7rem 1rem; padding: .8rem 1rem; }
.figures dd { font-size: 1.15rem; }
.figures .wide { grid-column: 1 / -1; }
.wide dd { display: flex; flex-wrap: wrap; align-items: center; gap: .25rem 1rem; font-size: 1rem; }
meter { flex: 1 1 8rem; height: .7rem; }
.plots { display: grid; grid-template-columns: repeat(auto-fit, minmax(min(100%, 20rem), 1fr)); gap: .75rem; }
.plots figure { padding: .6rem .8rem .4rem; }
figcaption { display: flex; justify-content: space-between; gap: 1rem; }
figcaption b { color: var(--ink); font-size: 1.05rem; }
svg { display: block; width: 100%; height: 8.5rem; }
svg path { fill: none; stroke: var(--plot); stroke-width: 1.5; vector-effect: non-scaling-stroke; stroke-linejoin: round; }
svg line { stroke: var(--line); vector-effect: non-scaling-stroke; }
svg text { fill: var(--soft); font-size: 11px; }
svg .end { text-anchor: end; }
.scroll { overflow-x: auto; }
table { width: 100%; border-collapse: collapse; }
th, td { padding: .4rem .8rem; text-align: right; border-bottom: 1px solid var(--line); white-space: nowrap; }
th:first-child, td:first-child { text-align: left; }
tbody th { color: var(--ink); font-size: 1rem; }
tbody tr:last-child > * { border-bottom: 0; }
.late { color: var(--ill); font-weight: 600; }
.note { margin: .25rem 0 .5rem; max-width: 46rem; }
#fault { margin: 0; padding: .6rem 1rem; }
footer { display: flex; flex-wrap: wrap; gap: .25rem 1rem; margin-top: 1.5rem; padding-top: .6rem; border-top: 1px solid var(--line); }
#asked { margin-left: auto; }
[hidden] { display: none !important; }
@media (max-width: 30rem) {
  thead { position: absolute; left: -99rem; }
  tbody tr { display: grid; grid-template-columns: 1fr 1fr; gap: .25rem 1rem; padding: .6rem .8rem; border-bottom: 1px solid var(--line); }
  tbody tr:last-child { border-bottom: 0; }
  tbody th, td { display: block; padding: 0; border: 0; text-align: left; white-space: normal; overflow-wrap: anywhere; }
  tbody th, .nobody { grid-column: 1 / -1; }
  td::before { content: attr(data-name); display: block; color: var(--soft); font-size: .78rem; font-weight: 400; }
  .figures { grid-template-columns: 1fr 1fr; padding: .7rem .8rem; }
}
";
