//! The fixed texts of a page.

/// The beginning of a page. Its policy lets no script run but the one whose digest it has, which is
/// that of `PAGE_END`, and loads nothing. Its style hides most objects until the script opens some,
/// so that a page of many is shown at once; where no script runs it hides none.
pub(crate) const PAGE_HEAD: &str = "\
<!DOCTYPE html>\n\
<html lang=\"en\">\n\
<head>\n\
<meta charset=\"utf-8\">\n\
<meta http-equiv=\"Content-Security-Policy\" content=\"default-src 'none'; \
style-src 'unsafe-inline'; \
script-src 'sha256-+esxUy+9KQ1MIzYQwGY3q8Z42TAV2SeaM55k1SsU7TQ='\">\n\
<title>Report of a drive</title>\n\
<style>\n\
:root { color-scheme: light dark; --text: #1f2933; --soft: #52606d; --back: #ffffff;\n  \
--field: #f5f7fa; --line: #cbd2d9; --made: #1a7f37; --changed: #1f6feb;\n  \
--hidden: #e12d39; --at: #fff3c4; }\n\
@media (prefers-color-scheme: dark) {\n  \
:root { --text: #e4e7eb; --soft: #9aa5b1; --back: #14181d; --field: #232b34;\n    \
--line: #3e4c59; --made: #3fb950; --changed: #58a6ff; --hidden: #ff6b6b;\n    \
--at: #4a3f10; }\n\
}\n\
body { font: 14px system-ui, sans-serif; color: var(--text); background: var(--back);\n  \
margin: 24px; }\n\
a { color: var(--changed); }\n\
h3 a { font-size: 14px; font-weight: normal; }\n\
.strip { display: flex; flex-wrap: wrap; align-items: center; margin-bottom: 4px;\n  \
content-visibility: auto; contain-intrinsic-size: auto 18px; }\n\
.strip span { flex: none; width: 280px; padding-right: 8px; box-sizing: border-box;\n  \
overflow: hidden; text-overflow: ellipsis; white-space: nowrap; }\n\
.strip svg { flex: 1; min-width: 0; background: var(--field); }\n\
.axis { display: flex; justify-content: space-between; margin-left: 280px;\n  \
color: var(--soft); }\n\
.axis svg { flex: auto; overflow: visible; font-size: 12px; fill: var(--soft); }\n\
.made { fill: var(--made); }\n\
.changed { fill: none; stroke: var(--changed); stroke-width: 4px; }\n\
.deleted { fill: none; stroke: var(--soft); stroke-width: 3px; }\n\
.hidden { fill: var(--hidden); fill-opacity: 0.4; }\n\
.outside { display: none; }\n\
.legend svg { width: 16px; height: 16px; margin: 0 6px 0 18px;\n  \
vertical-align: text-bottom; }\n\
.bar { position: sticky; top: 0; z-index: 1; padding: 8px 0; background: var(--back);\n  \
border-bottom: 1px solid var(--line); }\n\
.bar label { margin-left: 16px; white-space: nowrap; }\n\
.bar label[hidden] { display: none; }\n\
.bar p { margin: 0; color: var(--soft); }\n\
.said { flex: 0 0 100%; box-sizing: border-box; margin: 0; padding: 4px 0 4px 288px;\n  \
overflow-wrap: anywhere; }\n\
.name { color: var(--soft); font-weight: normal; overflow-wrap: anywhere; }\n\
input[type] { font: inherit; padding: 4px; width: 320px; max-width: 100%;\n  \
box-sizing: border-box; margin-bottom: 8px; }\n\
input[type=checkbox] { width: auto; margin: 0 4px 0 0; }\n\
table { border-collapse: collapse; }\n\
th, td { border: 1px solid var(--line); padding: 2px 8px; text-align: left;\n  \
white-space: pre-wrap; overflow-wrap: anywhere; }\n\
th { cursor: pointer; background: var(--field); overflow-wrap: normal; }\n\
th[aria-sort=ascending]::after { content: \" \\25b4\"; }\n\
th[aria-sort=descending]::after { content: \" \\25be\"; }\n\
pre { background: var(--field); padding: 8px; white-space: pre-wrap;\n  \
overflow-wrap: anywhere; content-visibility: auto;\n  \
contain-intrinsic-size: auto 80px; }\n\
:target { background: var(--at); }\n\
.strip, tr, h3 { scroll-margin-top: 100px; }\n\
@media (scripting: enabled) {\n  \
.strip:nth-child(n+100):not(.open), .shut:not(.open), tbody tr:not(.open),\n    \
h3:not(.open), pre:not(.open), pre + p:not(.open) { display: none; }\n  \
.strip path, .strip rect { cursor: pointer; }\n\
}\n\
@media (max-width: 800px) {\n  \
body { margin: 12px; }\n  \
.strip { display: block; contain-intrinsic-size: auto 36px; }\n  \
.strip span { display: block; width: auto; }\n  \
.axis { margin-left: 0; }\n  \
.said { padding-left: 8px; }\n  \
.bar { position: static; }\n  \
.bar label { display: block; margin-left: 0; }\n  \
table { font-size: 12px; }\n  \
th, td { padding: 2px 4px; }\n\
}\n\
@media print {\n  \
:root { color-scheme: light; --text: #000000; --soft: #444444; --back: #ffffff;\n    \
--field: #f5f7fa; --line: #999999; --made: #1a7f37; --changed: #1f6feb;\n    \
--hidden: #e12d39; --at: #ffffff; }\n  \
body { margin: 0; print-color-adjust: exact; }\n  \
.strip, pre { content-visibility: visible; }\n  \
.bar { position: static; }\n  \
.bar input, .bar label { display: none; }\n\
}\n\
</style>\n\
</head>\n\
<body>\n\
<h1>Report of a drive</h1>\n\
";

/// What is above the strips.
pub(crate) const TIMELINE_HEAD: &str = "\
<h2>Timeline</h2>\n\
<p class=\"legend\">\
<svg viewBox=\"0 0 16 16\"><path class=\"made\" d=\"M8 8m-5 0a5 5 0 1 0 10 0a5 5 0 1 0 -10 0\"></path></svg>made\
<svg viewBox=\"0 0 16 16\"><path class=\"changed\" d=\"M8 2v12\"></path></svg>changed\
<svg viewBox=\"0 0 16 16\"><path class=\"deleted\" d=\"M8 8m-5 -5l10 10m0 -10l-10 10\"></path></svg>deleted\
<svg viewBox=\"0 0 16 16\"><rect class=\"hidden\" x=\"0\" width=\"16\" height=\"16\"></rect></svg>\
hidden by a flush</p>\n\
<p>Each object has a strip with a mark for each of its changes that can be read, between the \
moments that are above the strips. A pointer over a mark shows its object, its moment and what was \
done.</p>\n\
";

/// What is between the strips and the rows of the table.
pub(crate) const TABLE_HEAD: &str = "\
<h2>Objects</h2>\n\
<p>A heading sorts by its column.</p>\n\
<input type=\"search\" placeholder=\"Search\" aria-label=\"Search\">\n\
<table>\n\
<thead><tr><th>object</th><th>state</th><th>bytes</th><th>created</th><th>changed</th>\
<th>attribute</th></tr></thead>\n\
<tbody>\n\
";

/// What is between the rows and the flushes.
pub(crate) const FLUSHES_HEAD: &str = "\
</tbody>\n\
</table>\n\
<h2>Flushes and windows</h2>\n\
<p>What administrators hid and which windows they set, by the audit's rows since the floor.</p>\n\
";

/// What is in place of the flushes and windows where there are none.
pub(crate) const NO_FLUSH: &str = "\
<p>None.</p>\n\
";

/// What is above the differences.
pub(crate) const DIFFERENCES_HEAD: &str = "\
<h2>Differences</h2>\n\
";

/// What is in place of the differences where there are none.
pub(crate) const NO_DIFFERENCE: &str = "\
<p>No object differs.</p>\n\
";

/// The end of a page, with its script. It opens the objects that changed, or those that a search
/// finds, but no more than a number; draws the time line since the moment that was asked for; links
/// an object's strip, row and difference; and sorts the table. It has no data in it, and no `<`.
pub(crate) const PAGE_END: &str = "\
<script>\n\
\"use strict\";\n\
// So many objects are open at once; a search opens others.\n\
const most = 1000;\n\
// Changes that are further apart, in microseconds, are always drawn apart.\n\
const halfHour = 1800000000;\n\
const table = document.querySelector(\"table\");\n\
const body = table.tBodies[0];\n\
const search = document.querySelector(\"input\");\n\
const axis = document.querySelector(\".axis\");\n\
const momentOf = (text) => /^\\d+$/.test(text) ? Number(text)\n  \
: Date.parse(text.slice(0, 19) + \"Z\") * 1000 + Number(text.slice(20, 26));\n\
const numbers = /^Clock (\\S+), floor (\\S+)\\. Differences are those since (\\S+)\\.$/\n  \
.exec(document.querySelector(\"p\").textContent).slice(1);\n\
const [clock, floor, since] = numbers.map(momentOf);\n\
const isDated = numbers[0].includes(\"T\");\n\
\n\
// The objects by their numbers, each with its strip, its row and its difference.\n\
const objects = new Map();\n\
const objectOf = (number) => {\n  \
if (!objects.has(number)) {\n    \
objects.set(number, { number, strip: null, row: null, difference: [] });\n  \
}\n  \
return objects.get(number);\n\
};\n\
const differenceOf = (heading) => {\n  \
const lines = heading.nextElementSibling;\n  \
const cut = lines.nextElementSibling;\n  \
return cut.matches(\"p\") ? [heading, lines, cut] : [heading, lines];\n\
};\n\
for (const strip of document.querySelectorAll(\".strip\")) {\n  \
objectOf(strip.firstChild.textContent.slice(7)).strip = strip;\n\
}\n\
for (const row of body.rows) {\n  \
objectOf(row.firstChild.textContent).row = row;\n\
}\n\
for (const heading of document.querySelectorAll(\"h3\")) {\n  \
objectOf(heading.textContent.slice(7)).difference = differenceOf(heading);\n\
}\n\
\n\
// The moments of a mark: that of a change, or the first and the last that are hidden.\n\
const spanOf = (mark) => {\n  \
if (mark.span === undefined) {\n    \
const text = mark.textContent;\n    \
const run = / hidden by a flush: (\\S+) to (\\S+)$/.exec(text);\n    \
const at = / at (\\S+): /.exec(text);\n    \
mark.span = (run === null ? [at[1], at[1]] : run.slice(1)).map(momentOf);\n  \
}\n  \
return mark.span;\n\
};\n\
const pictureOf = (object) => object.strip?.children[1] ?? null;\n\
const marksOf = (object) => Array.from(pictureOf(object)?.children ?? []);\n\
\n\
// The runs of hidden moments since then, of an object. One that each strip has is of all\n\
// objects, and says nothing of this one.\n\
const runsOf = (object) => Array.from(pictureOf(object)?.querySelectorAll(\"rect\") ?? [],\n  \
spanOf).filter((run) => run[1] >= since).map(String);\n\
const strips = document.querySelectorAll(\".strip\").length;\n\
const counts = new Map();\n\
for (const run of Array.from(objects.values()).flatMap(runsOf)) {\n  \
counts.set(run, (counts.get(run) ?? 0) + 1);\n\
}\n\
\n\
// An object is changed that differs, or that has a mark since then; the last mark is the\n\
// last change. One may have changed in moments that are hidden of it.\n\
const isChanged = (object) => {\n  \
const last = pictureOf(object)?.lastElementChild ?? null;\n  \
return object.difference.length > 0 || last !== null && last.matches(\"path\")\n    \
&& spanOf(last)[1] > since\n    \
|| runsOf(object).some((run) => strips === 1 || strips > counts.get(run));\n\
};\n\
let unchanged = 0;\n\
for (const object of objects.values()) {\n  \
object.isChanged = isChanged(object);\n  \
unchanged += object.isChanged ? 0 : 1;\n\
}\n\
\n\
// The moments that have places of their own on a line: those that are so far from the one\n\
// before, or from the one after.\n\
const knotsOf = (first, last, moments, apart) => {\n  \
const knots = [first];\n  \
for (const [index, moment] of moments.entries()) {\n    \
const before = moment - knots[knots.length - 1];\n    \
const after = (moments[index + 1] ?? last) - moment;\n    \
if (last > moment && before > 0 && (before > apart || after > apart)) {\n      \
knots.push(moment);\n    \
}\n  \
}\n  \
knots.push(last);\n  \
return knots;\n\
};\n\
// Where moments are. A part of the width is shared evenly among those places, and the rest\n\
// goes by time: so changes of hours are apart also in weeks. The places are for changes as\n\
// near to each other as there is room for.\n\
const scaleOf = (first, last, moments, width, evenly) => {\n  \
let apart = 0;\n  \
let knots = knotsOf(first, last, moments, apart);\n  \
while (knots.length * 16 > width && halfHour > apart) {\n    \
apart = Math.min(2 * apart + 1, halfHour);\n    \
knots = knotsOf(first, last, moments, apart);\n  \
}\n  \
const all = Math.max(last - first, 1);\n  \
const places = knots.map((knot, index) => width\n    \
* ((1 - evenly) * (knot - first) / all + evenly * index / (knots.length - 1)));\n  \
return { first, last, knots, places, width };\n\
};\n\
const placeOf = (scale, moment) => {\n  \
const { knots, places } = scale;\n  \
let [low, high] = [0, knots.length - 1];\n  \
while (high - low > 1) {\n    \
const middle = (low + high) >> 1;\n    \
[low, high] = knots[middle] > moment ? [low, middle] : [middle, high];\n  \
}\n  \
const part = (moment - knots[low]) / Math.max(knots[high] - knots[low], 1);\n  \
return places[low] + (places[high] - places[low]) * part;\n\
};\n\
const drawMark = (mark, scale) => {\n  \
const [first, last] = spanOf(mark);\n  \
const isOutside = scale.first > last || first > scale.last;\n  \
mark.classList.toggle(\"outside\", isOutside);\n  \
if (isOutside) {\n    \
return;\n  \
}\n  \
const place = placeOf(scale, Math.max(first, scale.first));\n  \
if (mark.matches(\"rect\")) {\n    \
mark.setAttribute(\"x\", place.toFixed(1));\n    \
mark.setAttribute(\"width\", Math.max(placeOf(scale, last) - place, 3).toFixed(1));\n  \
} else {\n    \
const shape = mark.getAttribute(\"d\");\n    \
mark.setAttribute(\"d\", \"M\" + place.toFixed(1) + shape.slice(shape.indexOf(\" \")));\n  \
}\n\
};\n\
\n\
// The ends of the time line, and the moments of changes that there is room for.\n\
const textOf = (moment) => isDated\n  \
? new Date(moment / 1000).toISOString().slice(0, 19).replace(\"T\", \" \")\n  \
: String(moment);\n\
const elementOf = (name, attributes) => {\n  \
const element = document.createElementNS(\"http://www.w3.org/2000/svg\", name);\n  \
for (const [key, value] of Object.entries(attributes)) {\n    \
element.setAttribute(key, value);\n  \
}\n  \
return element;\n\
};\n\
const labelOf = (place, moment, anchor) => {\n  \
const label = elementOf(\"text\", { x: place.toFixed(1), y: 12, \"text-anchor\": anchor });\n  \
label.textContent = textOf(moment);\n  \
return label;\n\
};\n\
const boxOf = (width) => \"-8 0 \" + (width + 16) + \" 16\";\n\
const drawAxis = (scale) => {\n  \
const { first, last, knots, places, width } = scale;\n  \
const picture = elementOf(\"svg\", { viewBox: boxOf(width) });\n  \
const room = 8 * textOf(last).length;\n  \
picture.append(labelOf(0, first, \"start\"), labelOf(width, last, \"end\"));\n  \
let free = room * 1.5;\n  \
for (const [index, place] of places.entries()) {\n    \
if (place >= free && width - room * 1.5 >= place) {\n      \
picture.append(labelOf(place, knots[index], \"middle\"));\n      \
free = place + room;\n    \
}\n  \
}\n  \
axis.replaceChildren(picture);\n\
};\n\
const draw = () => {\n  \
const width = Math.max(axis.clientWidth - 16, 100);\n  \
const first = isWhole.checked ? floor : since;\n  \
const marks = Array.from(opened).flatMap(marksOf);\n  \
const moments = marks.flatMap(spanOf).filter((moment) => moment >= first);\n  \
moments.sort((one, other) => one - other);\n  \
const scale = scaleOf(first, clock, moments, width, isToScale.checked ? 0 : 0.5);\n  \
for (const mark of marks) {\n    \
drawMark(mark, scale);\n  \
}\n  \
for (const object of opened) {\n    \
pictureOf(object)?.setAttribute(\"viewBox\", boxOf(width));\n  \
}\n  \
drawAxis(scale);\n\
};\n\
\n\
// Links between the parts of an object, and its name beside its number.\n\
const linkTo = (part, object, text) => {\n  \
const link = document.createElement(\"a\");\n  \
link.href = \"#\" + part + \"-\" + object.number;\n  \
link.title = part;\n  \
link.textContent = text;\n  \
return link;\n\
};\n\
const has = (object, part) =>\n  \
part === \"difference\" ? object.difference.length > 0 : object[part] !== null;\n\
const linksOf = (object, parts) => parts.filter((part) => has(object, part))\n  \
.flatMap((part) => [\" \", linkTo(part, object, part)]);\n\
const nameOf = (object) => {\n  \
const name = document.createElement(\"span\");\n  \
name.className = \"name\";\n  \
name.textContent = object.row === null ? \"\" : object.row.lastChild.textContent;\n  \
return name;\n\
};\n\
const linkStrip = (object) => {\n  \
const label = object.strip.firstChild;\n  \
const text = label.textContent;\n  \
const name = nameOf(object).textContent;\n  \
object.strip.id = \"strip-\" + object.number;\n  \
label.title = name;\n  \
label.replaceChildren(has(object, \"row\") ? linkTo(\"row\", object, text) : text, \" \", name);\n\
};\n\
const linkRow = (object) => {\n  \
const [first, , , , changed] = object.row.cells;\n  \
object.row.id = \"row-\" + object.number;\n  \
if (has(object, \"strip\")) {\n    \
first.replaceChildren(linkTo(\"strip\", object, object.number));\n  \
}\n  \
if (has(object, \"difference\")) {\n    \
changed.replaceChildren(linkTo(\"difference\", object, changed.textContent));\n  \
}\n\
};\n\
const link = (object) => {\n  \
object.isLinked = true;\n  \
if (object.strip !== null) {\n    \
linkStrip(object);\n  \
}\n  \
if (object.row !== null) {\n    \
linkRow(object);\n  \
}\n  \
for (const heading of object.difference.slice(0, 1)) {\n    \
heading.id = \"difference-\" + object.number;\n    \
heading.append(\" \", nameOf(object), ...linksOf(object, [\"strip\", \"row\"]));\n  \
}\n\
};\n\
\n\
// A flush of one object has a link to its strip, and its name.\n\
for (const flush of document.querySelectorAll(\"h2 ~ p\")) {\n  \
const [, before, number] = /^(.+ of )object (\\d+) hidden$/.exec(flush.textContent) ?? [];\n  \
const object = objects.get(number);\n  \
if (object !== undefined) {\n    \
const text = \"object \" + number;\n    \
const first = has(object, \"strip\") ? linkTo(\"strip\", object, text) : text;\n    \
flush.replaceChildren(before, first, \" \", nameOf(object), \" hidden\");\n  \
}\n\
}\n\
\n\
// A click on a mark shows what its title says, with links.\n\
const said = document.createElement(\"p\");\n\
said.className = \"said\";\n\
document.body.addEventListener(\"click\", (event) => {\n  \
const strip = event.target.closest(\".strip\");\n  \
const mark = event.target.closest(\"path, rect\");\n  \
if (strip !== null && mark !== null) {\n    \
const object = objects.get(strip.id.slice(6));\n    \
said.replaceChildren(mark.textContent, ...linksOf(object, [\"row\", \"difference\"]));\n    \
strip.append(said);\n  \
}\n\
});\n\
\n\
// Which objects are open: those that are found, or the first of them.\n\
const opened = new Set();\n\
const order = Array.from(objects.values());\n\
const wordsOf = (object) => {\n  \
if (object.words === undefined) {\n    \
const cells = Array.from(object.row?.cells ?? [], (cell) => cell.textContent);\n    \
object.words = [object.number, ...cells].join(\" \").toLowerCase();\n  \
}\n  \
return object.words;\n\
};\n\
const findObjects = () => {\n  \
const wanted = search.value.trim().toLowerCase().replace(/^object +/, \"\");\n  \
if (wanted === \"\") {\n    \
return order.filter((object) => object.isChanged || isAll.checked);\n  \
}\n  \
const named = objects.get(wanted);\n  \
const others = order.filter((object) => wordsOf(object).includes(wanted));\n  \
return named === undefined ? others\n    \
: [named, ...others.filter((object) => object !== named)];\n\
};\n\
const setOpen = (object, isOpen) => {\n  \
if (isOpen && object.isLinked === undefined) {\n    \
link(object);\n  \
}\n  \
for (const part of [object.strip, object.row, ...object.difference]) {\n    \
part?.classList.toggle(\"open\", isOpen);\n  \
}\n\
};\n\
const count = (number, one, more) =>\n  \
number.toLocaleString(\"en\") + \" \" + (number === 1 ? one : more);\n\
const show = () => {\n  \
const found = findObjects();\n  \
const chosen = new Set(found.slice(0, most));\n  \
for (const object of opened) {\n    \
if (!chosen.has(object)) {\n      \
setOpen(object, false);\n      \
opened.delete(object);\n    \
}\n  \
}\n  \
for (const object of chosen) {\n    \
setOpen(object, true);\n    \
opened.add(object);\n  \
}\n  \
body.append(...Array.from(chosen).flatMap((object) => object.row ?? []));\n  \
said.remove();\n  \
state.textContent = chosen.size.toLocaleString(\"en\") + \" of \"\n    \
+ count(objects.size, \"object is open\", \"objects are open\")\n    \
+ (found.length > most ? \", the first of \" + found.length.toLocaleString(\"en\")\n      \
+ \": a search opens others.\" : \".\");\n  \
draw();\n\
};\n\
table.tHead.addEventListener(\"click\", (event) => {\n  \
const heading = event.target.closest(\"th\");\n  \
if (heading === null) {\n    \
return;\n  \
}\n  \
const isRising = heading.getAttribute(\"aria-sort\") !== \"ascending\";\n  \
for (const other of table.tHead.rows[0].cells) {\n    \
other.removeAttribute(\"aria-sort\");\n  \
}\n  \
heading.setAttribute(\"aria-sort\", isRising ? \"ascending\" : \"descending\");\n  \
const { compare } = new Intl.Collator(\"en\", { numeric: true });\n  \
const keys = new Map(order.map((object) =>\n    \
[object, object.row?.cells[heading.cellIndex].textContent ?? \"\"]));\n  \
order.sort((one, other) =>\n    \
(isRising ? 1 : -1) * compare(keys.get(one), keys.get(other)));\n  \
show();\n\
});\n\
\n\
// What is above the time line.\n\
const bar = document.createElement(\"div\");\n\
const state = document.createElement(\"p\");\n\
const box = (text, isOfUse) => {\n  \
const label = document.createElement(\"label\");\n  \
const input = document.createElement(\"input\");\n  \
label.hidden = !isOfUse;\n  \
input.type = \"checkbox\";\n  \
input.addEventListener(\"change\", show);\n  \
label.append(input, text);\n  \
bar.append(label);\n  \
return input;\n\
};\n\
bar.className = \"bar\";\n\
state.setAttribute(\"role\", \"status\");\n\
bar.append(search);\n\
const isAll = box(\"also \" + count(unchanged, \"unchanged object\", \"unchanged objects\"),\n  \
unchanged > 0);\n\
const isWhole = box(\"from the floor on\", since > floor);\n\
const isToScale = box(\"to scale\", true);\n\
bar.append(state);\n\
document.querySelector(\"h2\").before(bar);\n\
document.querySelector(\".legend\").nextElementSibling.append(\" A click on one shows links. \"\n  \
+ \"Half of the width goes by time, and half evenly by changes, if not to scale.\");\n\
// What is done once before the page is drawn anew, however often it is asked for.\n\
const once = (action) => {\n  \
let isWaiting = false;\n  \
return () => {\n    \
if (!isWaiting) {\n      \
isWaiting = true;\n      \
requestAnimationFrame(() => {\n        \
isWaiting = false;\n        \
action();\n      \
});\n    \
}\n  \
};\n\
};\n\
search.addEventListener(\"input\", once(show));\n\
for (const strip of document.querySelectorAll(\".strip:not(:nth-child(n+100))\")) {\n  \
strip.classList.add(\"shut\");\n\
}\n\
show();\n\
\n\
// A link opens its object.\n\
const follow = () => {\n  \
const [, part, number] = /^#(strip|row|difference)-(\\d+)$/.exec(location.hash) ?? [];\n  \
const object = objects.get(number);\n  \
if (object !== undefined && !opened.has(object)) {\n    \
search.value = number;\n    \
show();\n  \
}\n  \
document.getElementById(part + \"-\" + number)?.scrollIntoView();\n\
};\n\
addEventListener(\"hashchange\", follow);\n\
addEventListener(\"resize\", once(draw));\n\
follow();\n\
</script>\n\
</body>\n\
</html>\n\
";
