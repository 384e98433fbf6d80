//! The page that shows an image in a browser. It is a copy of `explore/explore.html`, which
//! `bench/embed_page.py` makes.

/// The page, without the data of an image.
pub(crate) const PAGE: &str = r##"<!doctype html>
<!-- A page that shows a Squeak image. `sqzlook explore IMAGE` writes it, and after it the data:
     blocks

       <script type="application/json" class="KIND"> .. </script>

     with one JSON value on each line and without the character "<" in any text. By their kind:

     image    One object: the file's path, byte order, base address, sums, first fault, what was
              skipped, and the names of the fields of the special objects array.
     classes  [class, name, category, objects, bytes, retained bytes, [instance variables]] for each
              class of a live object, those that retain most first.
     objects  [place, bytes, retained bytes, dominator, class, header, label, value, text, field..]
              for each live object that is not left out, by address.
     end      [objects]: the number of these objects. A page without it was cut.

     Left out are the objects that retain fewer bytes than the first line has as `min`; it also has
     how many they are and how many bytes they have. Classes are those of all live objects.

     Nothing is 0. A place is the number of a data word: the address is that of the base and four
     times the place. A class is its place, or if the class is unknown, the compact class index
     subtracted from -1; the dominator of the special objects array is -1. A header is hash * 2048 +
     header words * 512 + compact class index * 16 + format. A value is that of a number or a
     character, or one more than the number of the elements of a collection. A field is an odd
     number, twice a SmallInteger plus one; or an even one, twice a place; an array of such a number
     if it is weak; or the digits of a word that leads to no object. Only traced fields are listed.
     The text of a method is an array: the digits of its bytecodes and its class, or -1 if that is
     unknown.

     Whatever an image holds goes into the page as text, never as markup. The policy below allows
     this script and this style alone; `bench/embed_page.py` writes their hashes. -->
<html lang="en">
<meta charset="utf-8">
<meta http-equiv="Content-Security-Policy" content="default-src 'none'; script-src 'sha256-s4g1OXjRL78dmY9gaQsz3WM7yI36YE3U58rydq+btY4='; style-src 'sha256-/6Bftxg8H9DUth6S6gj580ZHsEOAI+VOjPm9wApGmBI='; base-uri 'none'; form-action 'none'">
<meta name="viewport" content="width=device-width, initial-scale=1">
<meta name="color-scheme" content="light dark">
<title>Squeak image</title>
<style>
:root {
  --page: #fbfbfa; --panel: #ffffff; --ink: #1c2024; --soft: #5a636d; --line: #d9dde2;
  --link: #0b57b0; --head: #eef1f4; --mark: #fff1b8; --warn: #8a1f11; --warn-back: #fdecea;
  --class: #bcd2f0; --collection: #c4e3c6; --text: #f3dfae; --code: #e2cdef; --media: #f2c9c2;
  --other: #d4d9de; --smaller: #e9ecef; --edge: #ffffff; --chosen: #1c2024;
}
@media (prefers-color-scheme: dark) {
  :root {
    --page: #15181c; --panel: #1c2126; --ink: #e7eaee; --soft: #a3adb8; --line: #343b43;
    --link: #8bbcff; --head: #252b32; --mark: #5a4a12; --warn: #ffb4a6; --warn-back: #43211c;
    --class: #2c4a75; --collection: #2a5534; --text: #5f4c17; --code: #523b69; --media: #6b352c;
    --other: #434b54; --smaller: #2d333a; --edge: #15181c; --chosen: #ffffff;
  }
}
* { box-sizing: border-box; }
html { font: 1rem/1.5 system-ui, -apple-system, "Segoe UI", "DejaVu Sans", sans-serif; }
body { margin: 0; background: var(--page); color: var(--ink); overflow-wrap: anywhere; }
header { background: var(--panel); border-bottom: 1px solid var(--line); padding: .6rem 1rem; }
header, nav { display: flex; flex-wrap: wrap; gap: .4rem 1rem; align-items: center; }
header h1 { font-size: 1.05rem; margin: 0; }
nav a { padding: .15rem .5rem; border-radius: .4rem; text-decoration: none; }
nav a[aria-current] { background: var(--head); color: var(--ink); font-weight: 600; }
#find { margin-left: auto; display: flex; flex-wrap: wrap; gap: .5rem; align-items: center; }
main { padding: 1rem; max-width: 84rem; margin: 0 auto; outline: none; }
h2 { font-size: 1.45rem; line-height: 1.25; margin: .2rem 0 .8rem; }
h3 { font-size: 1.05rem; margin: 1.6rem 0 .5rem; }
a { color: var(--link); }
a:focus-visible, button:focus-visible, input:focus-visible, summary:focus-visible,
pre:focus-visible, svg:focus-visible { outline: 3px solid var(--link); outline-offset: 1px; }
input, button { font: inherit; color: inherit; background: var(--panel); padding: .2rem .6rem;
  border: 1px solid var(--soft); border-radius: .4rem; }
input[type="search"] { width: 15rem; max-width: 100%; }
button { cursor: pointer; }
.scroll { overflow-x: auto; background: var(--panel); border: 1px solid var(--line);
  border-radius: .5rem; }
table { border-collapse: collapse; width: 100%; font-variant-numeric: tabular-nums; }
th, td { text-align: left; vertical-align: top; padding: .25rem .75rem;
  border-bottom: 1px solid var(--line); overflow-wrap: anywhere; }
tbody tr:last-child > * { border-bottom: 0; }
thead th { background: var(--head); white-space: nowrap; }
thead button { border: 0; background: none; padding: 0; font-weight: 600; }
tbody tr:hover { background: var(--head); }
.number { text-align: right; white-space: nowrap; overflow-wrap: normal; }
.slot, .address { white-space: nowrap; }
.slot { font-weight: 400; color: var(--soft); }
.soft { color: var(--soft); }
.code, pre { font-family: ui-monospace, "DejaVu Sans Mono", monospace; font-size: .92em; }
pre { white-space: pre-wrap; margin: 0; padding: .6rem .75rem; max-height: 24rem; overflow: auto;
  background: var(--panel); border: 1px solid var(--line); border-radius: .5rem; }
pre > code { display: block; font: inherit; }
.facts { display: grid; grid-template-columns: repeat(auto-fit, minmax(13rem, 1fr)); gap: .6rem;
  margin: 0; }
.facts > div { background: var(--panel); border: 1px solid var(--line); border-radius: .5rem;
  padding: .45rem .75rem; }
.facts dt { color: var(--soft); font-size: .85rem; }
.facts dd { margin: 0; font-variant-numeric: tabular-nums; }
.warning { background: var(--warn-back); color: var(--warn); border-radius: .5rem;
  padding: .5rem .75rem; margin: 0 0 .8rem; }
.bar { display: flex; flex-wrap: wrap; gap: .6rem; align-items: center; margin: .5rem 0; }
.columns { display: grid; grid-template-columns: repeat(auto-fit, minmax(24rem, 1fr));
  gap: 0 1.5rem; }
@media (max-width: 32rem) { .columns { grid-template-columns: 1fr; } }
ol.path { margin: 0; padding: .4rem .75rem .4rem 2.4rem; background: var(--panel);
  border: 1px solid var(--line); border-radius: .5rem; }
mark { background: var(--mark); color: inherit; }
#progress { padding: .4rem 1rem; background: var(--head); display: flex; gap: .8rem;
  align-items: center; }
#progress[hidden] { display: none; }
progress { width: 14rem; max-width: 40vw; }
#icicle { display: block; width: 100%; height: auto; background: var(--panel);
  border: 1px solid var(--line); border-radius: .5rem; cursor: pointer; }
#icicle text { fill: var(--ink); font-size: 12px; pointer-events: none; }
#icicle rect { stroke: var(--edge); stroke-width: 1; }
#icicle .outline { fill: none; stroke: var(--chosen); stroke-width: 2; pointer-events: none; }
.class { fill: var(--class); } .collection { fill: var(--collection); }
.text { fill: var(--text); } .code-kind { fill: var(--code); } .media { fill: var(--media); }
.other { fill: var(--other); } .smaller { fill: var(--smaller); }
.legend { display: flex; flex-wrap: wrap; gap: .2rem 1rem; font-size: .9rem; }
.legend svg { width: .9em; height: .9em; vertical-align: -.1em; margin-right: .3em; }
#described { min-height: 3.2em; margin: .5rem 0 0; }
</style>
<header>
<h1 id="file">Squeak image</h1>
<nav aria-label="Views"><a href="#overview">Overview</a><a href="#classes">Classes</a></nav>
<form id="find" role="search"><input type="search" id="words" aria-label="Search labels and texts"
placeholder="Search (press /)"><label><input type="checkbox" id="regex"> regular expression</label>
<button>Search</button></form>
</header>
<div id="progress" role="status">
<progress id="bar" max="1" value="0" aria-label="Loaded"></progress>
<span id="stage">Loading</span></div>
<main id="view" tabindex="-1"></main>
<script>
"use strict";

// ---- Elements. Texts of an image only ever become text nodes.

const SVG = "http://www.w3.org/2000/svg";

function fill(element, attributes, children) {
  for (const [name, value] of Object.entries(attributes)) {
    if (name.startsWith("on")) element.addEventListener(name.slice(2), value);
    else if (value !== undefined && value !== false) element.setAttribute(name, value);
  }
  element.append(...children.filter((it) => it !== null && it !== undefined && it !== ""));
  return element;
}

const make = (tag, attributes = {}, ...children) =>
  fill(document.createElement(tag), attributes, children);
const draw = (tag, attributes = {}, ...children) =>
  fill(document.createElementNS(SVG, tag), attributes, children);
const byId = (id) => document.getElementById(id);
// More objects than this may be too many for a browser.
const MOST = 4000000;
const grouped = (number) => number.toLocaleString("en-US");
const counted = (number, what) => `${grouped(number)} ${what}${number === 1 ? "" : "s"}`;
const share = (part, whole) => `${(whole ? (100 * part) / whole : 0).toFixed(1)}%`;

// ---- The image, as far as it was read.

/** Numbers that are added one by one. */
class Numbers {
  constructor(type, room = 1024) {
    this.all = new type(room);
    this.length = 0;
  }
  push(number) {
    if (this.length === this.all.length) {
      const larger = new this.all.constructor(2 * this.length);
      larger.set(this.all);
      this.all = larger;
    }
    this.all[this.length++] = number;
  }
}

const image = {
  head: null, classes: new Map(), isWhole: false, isIndexed: false, badLines: 0,
  place: new Numbers(Int32Array), bytes: new Numbers(Float64Array),
  retained: new Numbers(Float64Array), above: new Numbers(Int32Array),
  kind: new Numbers(Int32Array), header: new Numbers(Int32Array),
  labels: [], values: [], elements: [], texts: [],
  // The bytecodes and the class of a method, by its row.
  codes: new Map(),
  // The fields of object K begin at `first[K]`.
  first: new Numbers(Int32Array), fields: new Numbers(Int32Array, 65536),
  weak: new Set(), bad: new Map(), rowAt: new Int32Array(0),
};

const count = () => image.place.length;

function addClass([key, name, category, objects, bytes, retained, variables]) {
  image.classes.set(key, { key, name, category: category || "", objects, bytes, retained,
    variables: variables || null });
}

function addObject(cells) {
  const row = count(), { fields } = image, text = cells[8];
  image.rowAt[cells[0]] = row + 1;
  image.place.push(cells[0]);
  image.bytes.push(cells[1]);
  image.retained.push(cells[2]);
  image.above.push(cells[3]);
  image.kind.push(cells[4]);
  image.header.push(cells[5]);
  image.labels.push(cells[6] || null);
  image.values.push(typeof cells[7] === "string" ? cells[7] : null);
  image.elements.push(typeof cells[7] === "number" && cells[7] > 0 ? cells[7] - 1 : null);
  image.texts.push(typeof text === "string" ? text : null);
  if (Array.isArray(text)) image.codes.set(row, text);
  image.first.push(fields.length);
  for (let at = 9; at < cells.length; at += 1) {
    const cell = cells[at];
    if (Array.isArray(cell)) image.weak.add(fields.length);
    else if (typeof cell === "string") image.bad.set(fields.length, cell);
    fields.push(typeof cell === "string" ? 0 : Number(cell));
  }
}

const rowOf = (place) => (image.rowAt[place] || 0) - 1;
const fieldsEnd = (row) => (row + 1 < count() ? image.first.all[row + 1] : image.fields.length);
const isInteger = (field) => (field & 1) === 1;
const headerOf = (row) => {
  const bits = image.header.all[row];
  return { hash: bits >> 11, words: (bits >> 9) & 3, compact: (bits >> 4) & 31, format: bits & 15 };
};
const hexOf = (place) =>
  (parseInt(image.head.base, 16) + 4 * place).toString(16).padStart(8, "0");
const addressOf = (row) => hexOf(image.place.all[row]);
const classOf = (row) => image.classes.get(image.kind.all[row]);
const classNameOf = (row) => {
  const key = image.kind.all[row], found = image.classes.get(key);
  return found ? found.name : key < 0 ? `compact ${-1 - key}` : "?";
};
const labelOf = (row) => image.labels[row] ?? `${classNameOf(row)} ${addressOf(row)}`;
/** Returns what stands for an object at a place that is not on the page. */
const missing = (place, isWeak = false) => {
  const { min, weak_cleared: isCleared } = image.head;
  const reason = !image.isWhole ? "not read" : isWeak && isCleared
    ? (min ? "not live, or left out" : "not live") : min ? "left out" : "not live";
  return `${hexOf(place)} (${reason})`;
};
const isRoot = (row) => image.place.all[row] === image.head.special;

/** Returns the row of the object at an address, or -1. */
function rowAtAddress(address) {
  const place = (parseInt(address, 16) - parseInt(image.head.base, 16)) / 4;
  return Number.isInteger(place) && place >= 0 ? rowOf(place) : -1;
}

/** Returns what an object is in a few words, next to its class. */
function previewOf(row) {
  if (image.values[row] !== null) return image.values[row];
  if (image.labels[row] !== null) return image.labels[row];
  if (image.elements[row] !== null) return counted(image.elements[row], "element");
  const { format, words } = headerOf(row), size = image.bytes.all[row] / 4 - words;
  return format < 5 ? counted(size, "field") : counted(4 * size, "byte");
}

/** Returns the name of a field of an object, or of its class word if the field is -1. */
function slotName(row, field) {
  if (field < 0) return "class";
  if (isRoot(row)) {
    const name = image.head.special_names[field];
    return name ? `special object ${field}, ${name}` : `special object ${field}`;
  }
  const { format } = headerOf(row), names = classOf(row)?.variables;
  if (format >= 12) {
    const header = image.fields.all[image.first.all[row]];
    if (field === 0) return "header";
    return isInteger(header) && field <= ((header >> 10) & 255) ? `literal ${field}`
      : `field ${field}`;
  }
  if (names && field < names.length) return `.${names[field]}`;
  if (format === 2) return `[${field + 1}]`;
  if ((format === 3 || format === 4) && names) return `[${field - names.length + 1}]`;
  return `field ${field}`;
}

/** Calls `visit(target, field, isWeak)` for each slot of an object that points to one. */
function eachTarget(row, visit) {
  const { weak, bad, rowAt } = image, fields = image.fields.all, kind = image.kind.all[row];
  const hasClassWord = ((image.header.all[row] >> 9) & 3) > 1;
  if (hasClassWord && kind >= 0 && rowAt[kind] > 0) visit(rowAt[kind] - 1, -1, false);
  const first = image.first.all[row], end = fieldsEnd(row);
  for (let at = first; at < end; at += 1) {
    const field = fields[at], target = isInteger(field) ? 0 : rowAt[field >> 1];
    if (target > 0 && !(bad.size > 0 && bad.has(at))) {
      visit(target - 1, at - first, weak.size > 0 && weak.has(at));
    }
  }
}

// ---- What is inverted from the slots and the dominators, once all is read.

const index = { sources: null, members: null, below: null, from: null, via: null };

/** Lists of rows, by row: those of K are at `starts[K]` to `starts[K + 1]`. */
class Lists {
  constructor(counts) {
    this.starts = new Int32Array(counts.length + 1);
    counts.forEach((number, at) => (this.starts[at + 1] = this.starts[at] + number));
    this.next = this.starts.slice(0, -1);
    this.all = new Int32Array(this.starts[counts.length]);
  }
  add(at, row) { this.all[this.next[at]++] = row; }
  of(at) { return this.all.subarray(this.starts[at], this.starts[at + 1]); }
}

/** Calls `work` for each number below a total, in pieces. The loop is in a function of its own,
    since browsers compile those of generators slowly. */
function* inPieces(stage, total, work) {
  const each = (at, end) => { for (; at < end; at += 1) work(at); };
  for (let at = 0; at < total; at += 4096) {
    each(at, Math.min(at + 4096, total));
    yield stage;
  }
}

function* makeIndex() {
  const rows = count(), keys = new Map([...image.classes.keys()].map((key, at) => [key, at]));
  const holders = new Int32Array(rows), children = new Int32Array(rows);
  const above = new Int32Array(rows), kinds = new Int32Array(rows);
  const sizes = new Int32Array(keys.size);
  let last = -1, source = 0;
  const countIt = (target) => { if (target !== last) holders[target] += 1; last = target; };
  yield* inPieces("Counting references", rows, (row) => {
    last = -1;
    eachTarget(row, countIt);
    above[row] = image.above.all[row] < 0 ? -1 : rowOf(image.above.all[row]);
    kinds[row] = keys.get(image.kind.all[row]) ?? -1;
    if (above[row] >= 0) children[above[row]] += 1;
    if (kinds[row] >= 0) sizes[kinds[row]] += 1;
  });
  const sources = new Lists(holders), below = new Lists(children), members = new Lists(sizes);
  const addIt = (target) => { if (target !== last) sources.add(target, source); last = target; };
  yield* inPieces("Inverting references", rows, (row) => {
    last = -1;
    source = row;
    eachTarget(row, addIt);
    if (above[row] >= 0) below.add(above[row], row);
    if (kinds[row] >= 0) members.add(kinds[row], row);
  });
  const { all } = image.retained, most = (one, other) => all[other] - all[one] || one - other;
  yield* inPieces("Sorting the dominator tree", rows, (row) => {
    if (children[row] > 1) below.of(row).sort(most);
  });
  yield* inPieces("Sorting instances", keys.size, (at) => members.of(at).sort(most));
  const from = new Int32Array(rows).fill(-1), via = new Int32Array(rows).fill(-1);
  const queue = new Int32Array(rows), root = rowOf(image.head.special);
  let end = 0;
  if (root >= 0) { queue[end++] = root; from[root] = root; }
  const reach = (target, field, isWeak) => {
    if (from[target] >= 0 || (isWeak && image.head.weak_cleared)) return;
    from[target] = source;
    via[target] = field;
    queue[end++] = target;
  };
  yield* inPieces("Finding paths", rows, (at) => {
    if (at >= end) return;
    source = queue[at];
    eachTarget(source, reach);
  });
  Object.assign(index, { sources, below, from, via,
    members: (key) => (keys.has(key) ? members.of(keys.get(key)) : []) });
  image.isIndexed = true;
}

/** Returns the steps of a shortest path from the special objects array: [row, field]. */
function pathTo(row) {
  const steps = [];
  while (row >= 0 && index.from[row] >= 0) {
    steps.push([row, index.via[row]]);
    if (isRoot(row)) return steps.reverse();
    row = index.from[row];
  }
  return [];
}

function dominatorsOf(row) {
  const chain = [];
  for (let at = row; at >= 0 && chain.length <= count(); at = rowOf(image.above.all[at])) {
    chain.push(at);
    if (image.above.all[at] < 0) break;
  }
  return chain.slice(1);
}

// ---- Loading, in pieces: the page answers between two of them.

const SLICE = 24;
const tasks = [], channel = new MessageChannel();
channel.port1.onmessage = () => tasks.shift()();

/** Calls a function after the events that wait. Unlike a timer, it is not slowed down in a tab that
    is in the background. */
function later(work) {
  tasks.push(work);
  channel.port2.postMessage(null);
}

const reading = { block: null, lines: [], at: 0 };

function nextBlock() {
  const block = document.querySelector('script[type="application/json"]');
  const isDone = document.readyState !== "loading";
  return block && (isDone || block.nextElementSibling) ? block : null;
}

function readLine(kind, line) {
  if (line.trim() === "") return;
  let value;
  try { value = JSON.parse(line); } catch { image.badLines += 1; return; }
  if (kind === "image") {
    image.head = value;
    image.rowAt = new Int32Array(value.data_bytes / 4 + 1);
    byId("file").textContent = nameOf(value.image);
    show();
  } else if (kind === "classes") addClass(value);
  else if (kind === "objects") addObject(value);
  else if (kind === "end") image.isWhole = value[0] === count();
}

const nameOf = (path) => path.split("/").pop() || path;

function read() {
  const until = performance.now() + SLICE;
  while (performance.now() < until) {
    if (!reading.block) {
      reading.block = nextBlock();
      if (!reading.block) break;
      reading.lines = reading.block.textContent.split("\n");
      reading.at = 0;
    }
    const kind = reading.block.className, { lines } = reading;
    const end = Math.min(reading.at + 256, lines.length);
    for (; reading.at < end; reading.at += 1) readLine(kind, lines[reading.at]);
    if (end === lines.length) {
      reading.block.remove();
      reading.block = null;
      if (kind === "classes") show();
    }
  }
  if (image.head) {
    const total = image.head.live_objects - image.head.left_out, part = count() / (total || 1);
    report(`${grouped(count())} of ${counted(total, "object")} read${timeLeft(part)}`, part);
  }
  if (!reading.block && !nextBlock() && document.readyState !== "loading") startIndex();
  else later(read);
}

const STARTED = performance.now();

/** Returns how long reading will take, if it is long, after a part of it. */
function timeLeft(part) {
  const elapsed = (performance.now() - STARTED) / 1000, left = elapsed / part - elapsed;
  return elapsed > 1 && left > 1 ? `, about ${Math.ceil(left)} s left` : "";
}

function report(stage, part) {
  byId("stage").textContent = stage;
  if (part === undefined) byId("bar").removeAttribute("value");
  else byId("bar").value = Math.min(part, 1);
}

function startIndex() {
  if (!image.head) {
    byId("progress").hidden = true;
    show();
    return;
  }
  const steps = makeIndex();
  (function go() {
    const until = performance.now() + SLICE;
    while (performance.now() < until) {
      const { done, value } = steps.next();
      if (done) {
        byId("progress").hidden = true;
        document.documentElement.dataset.ready = "yes";
        show();
        return;
      }
      report(value);
    }
    later(go);
  })();
}

// ---- Links, lists and tables.

const linkTo = (row, text = labelOf(row)) =>
  make("a", { href: `#object/${addressOf(row)}` }, text);
const classLink = (row) => make("a", { href: `#class/${image.kind.all[row]}` }, classNameOf(row));

/** Returns a table. A column is {title, isNumber, cell(item), kind}; rows come in pieces. */
function table(columns, items, { id, piece = 100, head } = {}) {
  const body = make("tbody");
  const titles = head ?? columns.map((it) =>
    make("th", { scope: "col", class: it.isNumber ? "number" : undefined }, it.title));
  const grid = make("table", { id }, make("thead", {}, make("tr", {}, ...titles)), body);
  const whole = make("div", {}, make("div", { class: "scroll" }, grid));
  let shown = 0;
  const more = make("button", { type: "button", onclick: () => add(10 * piece) });
  const add = (number) => {
    const end = Math.min(shown + number, items.length);
    for (; shown < end; shown += 1) {
      const item = items[shown];
      body.append(make("tr", {}, ...columns.map((it) =>
        make("td", { class: it.isNumber ? "number" : it.kind }, it.cell(item)))));
    }
    const left = items.length - shown;
    more.textContent = `Show ${grouped(Math.min(left, 10 * piece))} more of ${grouped(left)}`;
    more.hidden = left === 0;
  };
  add(piece);
  whole.append(make("div", { class: "bar" }, more));
  if (items.length <= piece) whole.lastChild.remove();
  return whole;
}

const objectColumns = () => [
  { title: "Object", cell: (row) => linkTo(row) },
  { title: "Class", cell: classLink },
  { title: "Bytes", isNumber: true, cell: (row) => grouped(image.bytes.all[row]) },
  { title: "Retained", isNumber: true, cell: (row) => grouped(image.retained.all[row]) },
];

const note = (text) => make("p", { class: "soft" }, text);
const waiting = () => note("The rest of the image is being read.");

function facts(pairs) {
  const shown = pairs.filter((pair) => pair && pair[1] !== null && pair[1] !== undefined);
  return make("dl", { class: "facts" }, ...shown.map(([name, value]) =>
    make("div", {}, make("dt", {}, name), make("dd", {}, value))));
}

// ---- The overview.

function* overview({ zoom }) {
  const { head } = image, dead = head.objects - head.live_objects;
  yield make("h2", {}, nameOf(head.image));
  if (head.skipped) yield make("p", { class: "warning" }, `Damaged: ${head.skipped}.`);
  if (head.live_objects - head.left_out > MOST) {
    yield make("p", { class: "warning", id: "large" }, `This page has more than ${grouped(MOST)} `
      + "objects, which may be too many for a browser. `sqzlook explore --min BYTES` leaves out "
      + "those that retain fewer than BYTES.");
  }
  if (head.min) {
    yield make("p", { id: "left-out" }, `Left out: ${counted(head.left_out, "live object")} that `
      + `${head.left_out === 1 ? "retains" : "retain"} fewer than ${counted(head.min, "byte")}, `
      + `${counted(head.left_out_bytes, "byte")} in all. Sums, classes and retained bytes are `
      + "those of the whole image; references from objects that were left out are missing.");
  }
  yield make("p", head.fault ? { class: "warning" } : {},
    head.fault ? `Not sound: ${head.fault}.` : "Sound: no fault.");
  yield facts([
    ["Live", `${counted(head.live_objects, "object")}, ${counted(head.live_bytes, "byte")}`],
    ["Dead", `${counted(dead, "object")}, ${counted(head.dead_bytes, "byte")}`],
    ["Free", `${counted(head.free_chunks, "chunk")}, ${counted(head.free_bytes, "byte")}`],
    ["Data", counted(head.data_bytes, "byte")],
    ["Base address", head.base],
    ["Byte order", head.order],
    ["Weak references", head.weak_cleared ? "cleared" : "kept"],
    ["Classes with live instances", grouped(image.classes.size)],
  ]);
  yield make("h3", {}, "What retains what");
  if (!image.isIndexed) { yield waiting(); return; }
  yield* icicle(zoom);
  yield make("h3", {}, "The objects that retain most");
  yield table(objectColumns(), topRetainers(20), { id: "top" });
}

function topRetainers(most) {
  const { all } = image.retained, root = rowOf(image.head.special), found = [];
  for (let row = 0; row < count(); row += 1) {
    if (row === root || (found.length === most && all[row] <= all[found[most - 1]])) continue;
    const at = found.findIndex((it) => all[it] < all[row]);
    found.splice(at < 0 ? found.length : at, 0, row);
    found.length = Math.min(found.length, most);
  }
  return found;
}

const KINDS = [
  ["class", "classes and variables", /( class|Metaclass|Association|VariableBinding)$/],
  ["text", "texts", /(String|Symbol|Text|UTF8|UTF32)$/],
  ["code-kind", "code and processes", /(Method|Block|Context|Process|Closure)/],
  ["media", "pictures, sounds, bytes",
    /(Form|Bitmap|Sound|Font|ByteArray|WordArray|Cursor|Screen)/],
  ["collection", "collections", /(Array|Bag|Dictionary|Set|Collection|List|Interval)$/],
  ["other", "other objects", /(?:)/],
];
const kindOf = (row) =>
  image.labels[row]?.startsWith("class ") ? "class"
    : KINDS.find(([, , pattern]) => pattern.test(classNameOf(row)))[0];

const LEVEL = 24, DEPTH = 16, NARROW = 3;

/** Returns the boxes of the dominator tree below an object: {row, smaller, bytes, left, width,
    level, parent}. Those that are too narrow share one. */
function boxesOf(root, whole) {
  const boxes = [], ancestors = dominatorsOf(root).reverse();
  const place = (box) => { boxes.push(box); return box; };
  let parent = null;
  for (const row of ancestors) {
    parent = place({ row, bytes: image.retained.all[row], left: 0, width: whole,
      level: boxes.length, parent });
  }
  const start = ancestors.length;
  const left = [place({ row: root, bytes: image.retained.all[root], left: 0, width: whole,
    level: start, parent })];
  while (left.length) {
    const box = left.pop();
    if (box.level - start >= DEPTH) continue;
    const scale = box.width / box.bytes, children = index.below.of(box.row);
    let at = box.left, next = 0;
    for (; next < children.length; next += 1) {
      const row = children[next], bytes = image.retained.all[row], width = bytes * scale;
      if (width < NARROW) break;
      left.push(place({ row, bytes, left: at, width, level: box.level + 1, parent: box }));
      at += width;
    }
    const rest = children.subarray(next);
    const bytes = rest.reduce((sum, row) => sum + image.retained.all[row], 0);
    if (bytes * scale >= NARROW) {
      place({ row: -1, smaller: rest.length, bytes, left: at, width: bytes * scale,
        level: box.level + 1, parent: box });
    }
  }
  return boxes;
}

const boxLabel = (box) => (box.row < 0 ? `${grouped(box.smaller)} smaller` : labelOf(box.row));

function icicle(zoom) {
  const whole = rowOf(image.head.special);
  const found = zoom ? rowAtAddress(zoom) : whole, root = found < 0 ? whole : found;
  if (root < 0) return [note("The special objects array is in the part that is missing.")];
  // As wide as the page, so that texts have their size at each zoom of the browser.
  const width = Math.max(320, Math.round(byId("view").clientWidth - 34));
  const boxes = boxesOf(root, width);
  const height = LEVEL * (1 + Math.max(...boxes.map((it) => it.level)));
  const svg = draw("svg", { id: "icicle", viewBox: `0 0 ${width} ${height}`, tabindex: 0,
    role: "application", "aria-label": "Dominator tree: arrow keys move, Enter zooms, Escape "
      + "shows the whole tree" });
  const described = make("p", { id: "described", "aria-live": "polite" });
  const outline = draw("rect", { class: "outline", height: LEVEL });
  let chosen = null;
  const choose = (box) => {
    chosen = box;
    outline.setAttribute("x", box.left);
    outline.setAttribute("y", box.level * LEVEL);
    outline.setAttribute("width", box.width);
    const parts = `${counted(box.bytes, "byte")}, ${share(box.bytes, image.head.live_bytes)} of `
      + "what is live";
    if (box.row < 0) {
      described.replaceChildren(`${grouped(box.smaller)} smaller objects below `,
        linkTo(box.parent.row), `: ${parts}`);
    } else {
      described.replaceChildren(linkTo(box.row), ` (${classNameOf(box.row)}): retains ${parts}`);
    }
  };
  const zoomTo = (box) => {
    const row = box.row < 0 ? box.parent.row : box.row;
    go("overview", row === whole ? {} : { zoom: addressOf(row) });
  };
  for (const box of boxes) {
    const room = Math.floor((box.width - 8) / 7.2), label = boxLabel(box);
    const shown = label.length <= room ? label : room > 4 ? `${label.slice(0, room - 1)}…` : "";
    svg.append(draw("g", {
      onclick: () => zoomTo(box), onmouseenter: () => choose(box),
    }, draw("rect", { class: box.row < 0 ? "smaller" : kindOf(box.row), x: box.left.toFixed(2),
      y: box.level * LEVEL, width: box.width.toFixed(2), height: LEVEL }),
    shown && draw("text", { x: (box.left + 4).toFixed(2), y: box.level * LEVEL + 16 }, shown)));
  }
  svg.append(outline);
  const first = boxes.find((it) => it.row === root);
  choose(first);
  const move = (key) => {
    if (key === "ArrowUp") return chosen.parent;
    const below = boxes.filter((it) => it.parent === chosen);
    if (key === "ArrowDown") return below[0];
    const row = boxes.filter((it) => it.level === chosen.level);
    row.sort((one, other) => one.left - other.left);
    return row[row.indexOf(chosen) + (key === "ArrowRight" ? 1 : -1)];
  };
  svg.addEventListener("keydown", (event) => {
    if (event.key === "Enter") zoomTo(chosen);
    else if (event.key === "Escape") go("overview", {});
    else if (event.key.startsWith("Arrow")) {
      const box = move(event.key);
      if (box) choose(box);
    } else return;
    event.preventDefault();
  });
  svg.addEventListener("focus", () => choose(chosen));
  const legend = make("p", { class: "legend" }, ...KINDS.map(([kind, text]) =>
    make("span", {}, draw("svg", { viewBox: "0 0 10 10", "aria-hidden": "true" },
      draw("rect", { class: kind, width: 10, height: 10 })), text)));
  return [
    note("Each box is an object; its width is what it retains, and the boxes below it are what it "
      + "dominates. A click or Enter zooms, Escape shows the whole tree."),
    svg, described, legend,
    make("div", { class: "bar" },
      root === whole ? null : make("a", { href: "#overview" }, "Show the whole tree"),
      make("button", { type: "button", onclick: () => saveDrawing(svg) }, "Save as SVG")),
  ];
}

/** Saves a drawing with its colours as a file of its own. */
function saveDrawing(svg) {
  const copy = svg.cloneNode(true);
  const [, , width, height] = svg.getAttribute("viewBox").split(" ");
  for (const name of ["id", "tabindex", "role"]) copy.removeAttribute(name);
  copy.setAttribute("xmlns", SVG);
  copy.setAttribute("width", width);
  copy.setAttribute("height", height);
  copy.setAttribute("font-family", "sans-serif");
  copy.setAttribute("font-size", "12");
  copy.querySelector(".outline").remove();
  const from = [...svg.querySelectorAll("g > *")];
  [...copy.querySelectorAll("rect, text")].forEach((it, at) => {
    const style = getComputedStyle(from[at]);
    it.setAttribute("fill", style.fill);
    if (it.localName === "rect") it.setAttribute("stroke", style.stroke);
    it.removeAttribute("class");
  });
  const data = new XMLSerializer().serializeToString(copy);
  const url = URL.createObjectURL(new Blob([data], { type: "image/svg+xml" }));
  const anchor = make("a", { href: url, download: `${nameOf(image.head.image)}.svg` });
  anchor.click();
  setTimeout(() => URL.revokeObjectURL(url), 10000);
}

// ---- Classes and instances.

const CLASS_COLUMNS = [
  ["name", "Class"], ["category", "Category"], ["objects", "Instances"], ["bytes", "Bytes"],
  ["retained", "Retained"],
];

function* classes({ sort = "-retained", filter = "" }) {
  yield make("h2", {}, "Classes");
  const isDown = sort.startsWith("-"), by = isDown ? sort.slice(1) : sort;
  const total = make("p", { class: "soft", "aria-live": "polite" });
  const place = make("div");
  const fillTable = (text) => {
    const wanted = text.toLowerCase(), sign = isDown ? -1 : 1;
    const found = [...image.classes.values()].filter((it) =>
      `${it.name} ${it.category}`.toLowerCase().includes(wanted));
    found.sort((one, other) => sign * (typeof one[by] === "number" ? one[by] - other[by]
      : String(one[by]).localeCompare(String(other[by]))));
    const sum = (name) => found.reduce((all, it) => all + it[name], 0);
    total.textContent = `${counted(found.length, "class").replace(/classs$/, "classes")}, `
      + `${counted(sum("objects"), "instance")}, ${counted(sum("bytes"), "byte")}`;
    const head = CLASS_COLUMNS.map(([name, title]) => {
      const isBy = name === by, isText = name === "name" || name === "category";
      const next = isBy ? (isDown ? name : `-${name}`) : isText ? name : `-${name}`;
      return make("th", { scope: "col", class: isText ? undefined : "number",
        "aria-sort": isBy ? (isDown ? "descending" : "ascending") : undefined },
      make("button", { type: "button", onclick: () =>
        go("classes", { sort: next, filter: byId("filter").value }) },
      `${title}${isBy ? (isDown ? " ▾" : " ▴") : ""}`));
    });
    place.replaceChildren(table([
      { cell: (it) => make("a", { href: `#class/${it.key}` }, it.name) },
      { cell: (it) => it.category },
      { isNumber: true, cell: (it) => grouped(it.objects) },
      { isNumber: true, cell: (it) => grouped(it.bytes) },
      { isNumber: true, cell: (it) => grouped(it.retained) },
    ], found, { id: "classes", piece: 200, head }));
  };
  yield make("div", { class: "bar" }, make("label", {}, "Filter by name or category ",
    make("input", { type: "search", id: "filter", value: filter, oninput: (event) => {
      fillTable(event.target.value);
      history.replaceState(null, "", hashOf("classes", { sort, filter: event.target.value }));
    } })), total);
  fillTable(filter);
  yield place;
}

function* instances({ of }) {
  const key = Number(of), found = image.classes.get(key), row = key < 0 ? -1 : rowOf(key);
  if (!found) { yield make("h2", {}, "No such class"); return; }
  yield make("h2", {}, `Instances of ${found.name}`);
  yield facts([
    ["Instances", grouped(found.objects)],
    ["Bytes", grouped(found.bytes)],
    ["Retained bytes", `${grouped(found.retained)} (${share(found.retained,
      image.head.live_bytes)})`],
    found.category && ["Category", found.category],
    key >= 0 ? ["The class itself", row < 0 ? missing(key) : linkTo(row)] : null,
    found.variables?.length && ["Instance variables", found.variables.join(" ")],
  ]);
  yield make("h3", {}, "Those that retain most first");
  if (!image.isIndexed) { yield waiting(); return; }
  yield* someLeftOut(index.members(key).length < found.objects
    && counted(found.objects - index.members(key).length, "instance"));
  yield table([
    { title: "Address", kind: "address", cell: (it) => linkTo(it, addressOf(it)) },
    { title: "Preview", cell: previewOf },
    { title: "Bytes", isNumber: true, cell: (it) => grouped(image.bytes.all[it]) },
    { title: "Retained", isNumber: true, cell: (it) => grouped(image.retained.all[it]) },
    { title: "Immediate dominator", cell: (it) => {
      const above = image.above.all[it] < 0 ? -1 : rowOf(image.above.all[it]);
      return above < 0 ? "" : linkTo(above);
    } },
  ], index.members(key), { id: "instances" });
}

// ---- An object.

/** Says how many objects of a list were left out, if some were. */
function* someLeftOut(what) {
  if (image.head.min && image.isWhole && what) yield note(`${what} left out.`);
}

const FORMATS = ["no fields", "fixed fields", "indexed fields", "fixed and indexed fields",
  "fixed and weak fields", "5", "words", "7"];

function* object({ of }) {
  const row = rowAtAddress(of);
  if (row < 0) {
    yield make("h2", {}, `No live object at ${of}`);
    if (!image.isIndexed) yield waiting();
    else if (image.head.min) {
      yield note(`Or it retains fewer than ${counted(image.head.min, "byte")} and was left out.`);
    }
    return;
  }
  const { hash, compact, format, words } = headerOf(row), label = labelOf(row);
  const above = image.above.all[row] < 0 ? -1 : rowOf(image.above.all[row]);
  yield make("h2", {}, label);
  yield facts([
    ["Address", addressOf(row)],
    ["Class", classLink(row)],
    ["Bytes", grouped(image.bytes.all[row])],
    ["Retained bytes", `${grouped(image.retained.all[row])} (${share(image.retained.all[row],
      image.head.live_bytes)})`],
    above < 0 ? null : ["Immediate dominator", linkTo(above)],
    ["Format", FORMATS[format] ? `${format}, ${FORMATS[format]}`
      : `${format}, ${format < 12 ? "bytes" : "a compiled method"}`],
    ["Identity hash", grouped(hash)],
    compact ? ["Compact class index", compact] : null,
    ["Header words", words],
    image.values[row] === null ? null : ["Value", image.values[row]],
    image.classes.has(image.place.all[row]) ? ["Instances", make("a",
      { href: `#class/${image.place.all[row]}` },
      counted(image.classes.get(image.place.all[row]).objects, "instance"))] : null,
    ["In the tree", make("a", { href: hashOf("overview", { zoom: addressOf(row) }) },
      "show what it retains")],
  ]);
  if (image.texts[row] !== null) {
    yield make("h3", {}, "Text");
    yield long(image.texts[row]);
  }
  if (image.codes.has(row)) yield* codeOf(row);
  yield* slotsOf(row);
  if (!image.isIndexed) { yield waiting(); return; }
  yield make("div", { class: "columns" }, make("section", {}, ...referrersOf(row)),
    make("section", {}, ...keepersOf(row)));
  const below = index.below.of(row);
  yield make("h3", {}, `Immediately dominates (${grouped(below.length)})`);
  yield below.length ? table(objectColumns(), below, { id: "below", piece: 50 })
    : note(image.head.min ? "Nothing that was not left out." : "Nothing but itself.");
}

const LONG = 20000;

function long(text) {
  const shown = make("pre", { id: "text" }, text.slice(0, LONG));
  if (text.length <= LONG) return shown;
  const button = make("button", { type: "button", onclick: () => {
    shown.textContent = text;
    button.remove();
  } }, `Show all ${grouped(text.length)} characters`);
  return make("div", {}, shown, make("div", { class: "bar" }, button));
}

/** Returns what a field holds, at a place of all fields. */
function held(at) {
  if (image.bad.has(at)) return `${image.bad.get(at)} (no object)`;
  const field = image.fields.all[at];
  if (isInteger(field)) return String((field - 1) / 2);
  const target = rowOf(field / 2), mark = image.weak.has(at) ? " (weak)" : "";
  if (target < 0) return `${missing(field / 2, image.weak.has(at))}${mark}`;
  const cell = make("span", {}, linkTo(target), mark);
  const preview = image.values[target];
  if (preview !== null) cell.append(make("span", { class: "soft" }, ` ${preview}`));
  return cell;
}

function* slotsOf(row) {
  const first = image.first.all[row], traced = fieldsEnd(row) - first;
  const { words, format } = headerOf(row), all = image.bytes.all[row] / 4 - words;
  yield make("h3", {}, `Slots (${grouped(traced + (words > 1 ? 1 : 0))})`);
  const places = Array.from({ length: traced }, (_, field) => field);
  if (words > 1) places.unshift(-1);
  if (places.length) {
    yield table([
      { title: "Slot", kind: "slot", cell: (field) => slotName(row, field) },
      { title: "Holds", cell: (field) => (field < 0 ? classHeld(row) : held(first + field)) },
    ], places, { id: "slots" });
  }
  if (all > traced && !(format >= 8 && format < 12)) {
    yield note(`${counted(all - traced, "more word")} ${all - traced === 1 ? "is" : "are"} not `
      + "traced.");
  }
}

function classHeld(row) {
  const kind = image.kind.all[row], target = kind < 0 ? -1 : rowOf(kind);
  return target >= 0 ? linkTo(target) : kind < 0 ? "no object" : missing(kind);
}

/** Returns each slot of an object that points to another one, as [source, field, isWeak]. */
function referencesTo(row) {
  const found = [];
  for (const source of new Set(index.sources.of(row))) {
    eachTarget(source, (target, field, isWeak) => {
      if (target === row) found.push([source, field, isWeak]);
    });
  }
  return found;
}

function* referrersOf(row) {
  const found = referencesTo(row);
  yield make("h3", {}, `Referenced by (${grouped(found.length)})`);
  yield found.length ? table([
    { title: "Object", cell: ([source]) => linkTo(source) },
    { title: "Slot", kind: "slot", cell: ([source, field, isWeak]) =>
      `${slotName(source, field)}${isWeak ? " (weak)" : ""}` },
  ], found, { id: "referrers", piece: 50 })
    : note(image.head.min ? "Nothing that was not left out." : "Nothing.");
}

function* keepersOf(row) {
  const steps = pathTo(row), chain = dominatorsOf(row);
  yield make("h3", {}, "A shortest path from the roots");
  yield steps.length ? make("ol", { class: "path", id: "path" }, ...steps.map(([step, field], at) =>
    make("li", {}, at === 0 ? null : make("span", { class: "soft" },
      `${slotName(steps[at - 1][0], field)}: `), linkTo(step))))
    : note(image.head.min ? "None without an object that was left out." : "None.");
  yield make("h3", {}, `Dominated by (${grouped(chain.length)})`);
  yield chain.length ? make("ol", { class: "path", id: "dominators" }, ...chain.map((it) =>
    make("li", {}, linkTo(it), make("span", { class: "soft" },
      ` retains ${counted(image.retained.all[it], "byte")}`)))) : note("Nothing: it is the root.");
}

// ---- The code of a method, as `sqzlook code` prints it.

const SELECTORS = ["+", "-", "<", ">", "<=", ">=", "=", "~=", "*", "/", "\\\\", "@", "bitShift:",
  "//", "bitAnd:", "bitOr:", "at:", "at:put:", "size", "next", "nextPut:", "atEnd", "==", "class",
  "blockCopy:", "value", "value:", "do:", "new", "new:", "x", "y"];
const PUSHED = ["self", "true", "false", "nil", "-1", "0", "1", "2"];
const RETURNED = ["self", "true", "false", "nil", "top", "top from block"];
const OPERANDS = ["variable", "temporary", "literal", "literal"];
const EXTENDED = [["send", "literal"], ["send super", "literal"], ["push", "variable"],
  ["push", "literal"], ["push", "literal"], ["store", "variable"], ["pop into", "variable"],
  ["store", "literal"]];
const BLOCK_COPY = 200, MOST_INDENTED = 20, LONGEST_CHAIN = 100;
const SUPERCLASS = 0, FORMAT = 2, VARIABLES = 3;

const lengthOf = (code) =>
  code === 132 ? 3 : (code >= 128 && code < 135) || (code >= 160 && code < 176) ? 2 : 1;

/** Returns what an instruction does, from its bytes: {operation}, with {operand, index} if it works
    on a variable or a literal, and with {distance} from its end if it jumps. */
function decoded(code, second, third) {
  const on = (operation, operand, index) => ({ operation, operand, index });
  const far = (operation, distance) => ({ operation, distance });
  if (code < 16) return on("push", "variable", code);
  if (code < 32) return on("push", "temporary", code - 16);
  if (code < 96) return on("push", "literal", code & 31);
  if (code < 112) return on("pop into", OPERANDS[(code - 96) >> 3], code & 7);
  if (code < 120) return { operation: `push ${PUSHED[code - 112]}` };
  if (code < 126) return { operation: `return ${RETURNED[code - 120]}` };
  if (code === 128) return on("push", OPERANDS[second >> 6], second & 63);
  if ((code === 129 || code === 130) && second >> 6 !== 2) {
    return on(code === 129 ? "store" : "pop into", OPERANDS[second >> 6], second & 63);
  }
  if (code === 131) return on("send", "literal", second & 31);
  if (code === 132) return on(...EXTENDED[second >> 5], third);
  if (code === 133) return on("send super", "literal", second & 31);
  if (code === 134) return on("send", "literal", second & 63);
  if (code === 135) return { operation: "pop" };
  if (code === 136) return { operation: "duplicate" };
  if (code === 137) return { operation: "push thisContext" };
  if (code >= 144 && code < 152) return far("jump", code - 143);
  if (code >= 152 && code < 160) return far("jump if false", code - 151);
  if (code >= 160 && code < 168) return far("jump", (code - 164) * 256 + second);
  if (code >= 168 && code < 172) return far("jump if true", (code - 168) * 256 + second);
  if (code >= 172 && code < 176) return far("jump if false", (code - 172) * 256 + second);
  if (code >= 176 && code < 208) return { operation: `send #${SELECTORS[code - 176]}` };
  if (code >= 208) return on("send", "literal", code & 15);
  return { operation: "unknown" };
}

/** Returns the instructions of bytecodes: what each does, with its place, its bytes, and in how many
    blocks it is. The code of a block stands after the jump that follows `blockCopy:`, and ends
    where this jump leads. One that is cut short is unknown. */
function instructionsOf(code) {
  const found = [], ends = [];
  for (let start = 0, before = 0; start < code.length;) {
    const bytes = code.slice(start, start + lengthOf(code[start])), end = start + bytes.length;
    const does = bytes.length < lengthOf(code[start]) ? { operation: "unknown" }
      : decoded(...bytes);
    while (ends.length && ends[ends.length - 1] <= start) ends.pop();
    found.push({ ...does, start, bytes, end, blocks: ends.length });
    if (before === BLOCK_COPY && does.operation === "jump" && does.distance >= 0) {
      ends.push(end + does.distance);
    }
    before = code[start];
    start = end;
  }
  return found;
}

/** Returns the row of the object that a field points to, or -1. */
function targetOf(row, field) {
  const at = image.first.all[row] + field;
  return row < 0 || at >= fieldsEnd(row) || isInteger(image.fields.all[at]) || image.bad.has(at)
    ? -1 : rowOf(image.fields.all[at] / 2);
}

/** Returns the names of the instance variables of a class; none if they are unknown. One without
    instances is not among the classes: it has its own names and those of its superclasses. */
function variablesOf(place) {
  const found = image.classes.get(place), names = [], row = rowOf(place);
  if (found) return found.variables ?? [];
  for (let at = row, steps = 0; at >= 0 && steps < LONGEST_CHAIN; steps += 1) {
    const array = targetOf(at, VARIABLES), size = array < 0 ? 0
      : fieldsEnd(array) - image.first.all[array];
    names.unshift(...Array.from({ length: size }, (_, field) => {
      const name = targetOf(array, field);
      return name < 0 ? null : image.texts[name];
    }));
    at = targetOf(at, SUPERCLASS);
  }
  const at = image.first.all[row] + FORMAT, format = row >= 0 && at < fieldsEnd(row)
    && isInteger(image.fields.all[at]) ? image.fields.all[at] : 0;
  const fixed = ((format >>> 17) & 3) * 64 + ((format >>> 2) & 63) - 1;
  return names.includes(null) || names.length !== fixed ? [] : names;
}

/** Returns a literal as text, with a link to an object. */
function literalOf(row, index) {
  const at = image.first.all[row] + 1 + index, field = image.fields.all[at];
  if (at >= fieldsEnd(row)) return `literal ${index + 1}, which is not there`;
  const target = isInteger(field) || image.bad.has(at) ? -1 : rowOf(field / 2);
  return target < 0 ? held(at) : linkTo(target, image.values[target] ?? labelOf(target));
}

/** Returns what the header of a method says. */
function headerText(header) {
  const primitive = ((header >>> 1) & 511) + 512 * ((header >>> 29) & 1);
  const temporaries = (header >>> 19) & 63, word = temporaries === 1 ? "temporary" : "temporaries";
  return `${temporaries} ${word}, ${(header >>> 25) & 15} of them arguments, `
    + `${counted((header >>> 10) & 255, "literal")}, primitive ${primitive}`
    + `${(header >>> 18) & 1 ? ", large frame" : ""}`;
}

/** Shows the code of a method: a line for each instruction, with its program counter, its bytes and
    what it does. */
function* codeOf(row) {
  const [digits, place] = image.codes.get(row), first = image.first.all[row];
  const code = Array.from(digits.match(/../g) ?? [], (it) => parseInt(it, 16));
  const traced = fieldsEnd(row) - first, start = 4 * Math.max(traced, 1) + 1;
  const variables = place < 0 ? [] : variablesOf(place);
  const operand = ({ operand: kind, index }) => (kind === "literal" ? literalOf(row, index)
    : kind === "temporary" ? `temp ${index}` : variables[index] ?? `instance variable ${index}`);
  const lines = instructionsOf(code).map((it) => {
    const bytes = it.bytes.map((byte) => byte.toString(16).padStart(2, "0")).join(" ");
    const indent = "  ".repeat(Math.min(it.blocks, MOST_INDENTED));
    return make("code", {},
      `${String(it.start + start).padStart(6)}  ${bytes.padEnd(9)}  ${indent}${it.operation}`,
      it.operand && " ", it.operand && operand(it),
      it.distance === undefined ? null : ` to ${it.end + it.distance + start}`);
  });
  yield make("h3", {}, `Code (${counted(lines.length, "instruction")})`);
  if (traced > 0 && isInteger(image.fields.all[first])) {
    yield make("p", { class: "soft", id: "method" }, headerText(image.fields.all[first]));
  }
  yield make("pre", { id: "code", tabindex: 0, role: "region", "aria-label": "Code" }, ...lines);
}

// ---- Search.

/** Returns whether a text matches, and else what is wrong with the request. */
function matcherOf(words, isPattern) {
  if (isPattern) {
    try {
      const pattern = new RegExp(words, "i");
      return { matches: (text) => pattern.test(text) };
    } catch (error) { return { fault: error.message }; }
  }
  const parts = words.toLowerCase().split(/\s+/).filter(Boolean);
  return { matches: (text) => {
    const lower = text.toLowerCase();
    return parts.every((part) => lower.includes(part));
  } };
}

let searches = 0;

function* search({ q = "", regex }) {
  byId("words").value = q;
  byId("regex").checked = Boolean(regex);
  yield make("h2", {}, q ? `Search for ${q}` : "Search");
  if (!q) {
    yield note("Enter words that a label or a text holds, or a regular expression.");
    return;
  }
  const { matches, fault } = matcherOf(q, regex);
  if (fault) { yield make("p", { class: "warning" }, fault); return; }
  const exact = /^(0x)?[0-9a-f]{1,8}$/i.test(q) ? rowAtAddress(q.replace(/^0x/i, "")) : -1;
  if (exact >= 0) yield make("p", {}, "The object at this address: ", linkTo(exact));
  const total = make("p", { class: "soft", id: "found", "aria-live": "polite" }, "Searching");
  const place = make("div");
  yield total;
  yield place;
  const found = [], ticket = ++searches;
  let row = 0;
  (function step() {
    if (ticket !== searches) return;
    const until = performance.now() + SLICE;
    while (row < count() && performance.now() < until) {
      for (const end = Math.min(row + 500, count()); row < end; row += 1) {
        const text = image.texts[row], value = image.values[row];
        if (matches(labelOf(row)) || (text !== null && matches(text))
          || (value !== null && matches(value))) found.push(row);
      }
    }
    if (row < count() || !image.isIndexed) {
      total.textContent = `Searching: ${counted(found.length, "object")} so far`;
      setTimeout(step, row < count() ? 0 : 100);
      return;
    }
    total.textContent = `${counted(found.length, "object")} found`;
    const { all } = image.retained;
    found.sort((one, other) => all[other] - all[one] || one - other);
    place.replaceChildren(table([
      ...objectColumns().slice(0, 2),
      { title: "Text", cell: (it) => {
        const text = image.texts[it] ?? image.values[it] ?? "";
        return make("span", { class: "code" }, text.slice(0, 200), text.length > 200 ? "…" : "");
      } },
      ...objectColumns().slice(2),
    ], found, { id: "results" }));
  })();
}

// ---- Addresses and views.

const VIEWS = { overview, classes, class: instances, object, search };

function hashOf(view, parameters) {
  const query = new URLSearchParams(Object.entries(parameters).filter(([, value]) => value));
  return query.size ? `#${view}?${query}` : `#${view}`;
}

function go(view, parameters) {
  const hash = hashOf(view, parameters);
  if (location.hash === hash) show();
  else location.hash = hash;
}

let shownAt = null;

function show() {
  const [path, query = ""] = location.hash.slice(1).split("?");
  const [name, of] = path.split("/"), view = byId("view");
  const parameters = { of, ...Object.fromEntries(new URLSearchParams(query)) };
  searches += 1;
  for (const link of document.querySelectorAll("nav a")) {
    const isHere = link.hash.slice(1) === (name || "overview");
    if (isHere) link.setAttribute("aria-current", "page");
    else link.removeAttribute("aria-current");
  }
  if (!image.head) {
    view.replaceChildren(document.readyState === "loading" || reading.block ? waiting()
      : make("p", { class: "warning" }, "This page holds no image, or was cut before it. "
        + "`sqzlook explore IMAGE` writes one that does."));
    return;
  }
  const parts = [...(Object.hasOwn(VIEWS, name) ? VIEWS[name] : overview)(parameters)];
  if (image.isIndexed && !image.isWhole) {
    parts.unshift(make("p", { class: "warning", id: "cut" }, `This page was cut: it has `
      + `${grouped(count())} of `
      + `${counted(image.head.live_objects - image.head.left_out, "live object")}. Sums and `
      + "retained bytes are those of the whole image; references from the rest are missing."));
  }
  const hadFilter = document.activeElement?.id === "filter";
  view.replaceChildren(...parts);
  document.title = `${view.querySelector("h2")?.textContent ?? "Overview"} – `
    + nameOf(image.head.image);
  if (location.hash !== shownAt && shownAt !== null) {
    const isZoom = /^#?(overview|$)/.test(shownAt) && (name || "overview") === "overview";
    const drawing = isZoom && byId("icicle");
    (drawing || view).focus({ preventScroll: Boolean(drawing) });
    if (!drawing) scrollTo(0, 0);
  } else if (hadFilter) byId("filter")?.focus();
  shownAt = location.hash;
}

let resized = 0;

addEventListener("hashchange", show);
addEventListener("resize", () => {
  clearTimeout(resized);
  resized = setTimeout(() => { if (byId("icicle")) show(); }, 200);
});
addEventListener("keydown", (event) => {
  if (event.key === "/" && !/^(INPUT|TEXTAREA)$/.test(document.activeElement?.tagName ?? "")) {
    event.preventDefault();
    byId("words").focus();
    byId("words").select();
  }
});
byId("find").addEventListener("submit", (event) => {
  event.preventDefault();
  go("search", { q: byId("words").value, regex: byId("regex").checked ? "1" : "" });
});
show();
read();
</script>
"##;
