//! The parts that every picture has.

/// The appearance of a picture, on a light page and on a dark one.
pub(crate) const STYLE: &str = "\
<style>
text { font: 12px sans-serif; fill: #222 }
.ground { fill: #fff }
.number, .note { fill: #555 }
.number { text-anchor: middle }
.name { font-weight: bold; text-anchor: end }
.again { font-size: 11px; text-anchor: start; fill: #555 }
.text, .value { font: 11px monospace }
.text, .again { paint-order: stroke; stroke: #fff; stroke-width: 3px }
.grid { stroke: #eee }
.lane { stroke: #ccc }
.word { fill: #dcebdc; stroke: #999 }
.unreached { fill: #f6f6f6; stroke: #999 }
.bar { stroke: #888 }
.shorter { fill: #cfe8cf }
.smaller { fill: #fde9b8 }
.kept { fill: #e3e3e3 }
.read { fill: #d5e3f5 }
.dot { fill: #222 }
.cross { fill: none; stroke: #b71c1c; stroke-width: 3 }
.dash { stroke: #767676; stroke-width: 3 }
.ring { fill: none; stroke: #222; stroke-width: 1.5 }
.stores { stroke: #17774b; stroke-width: 1.5 }
.beaten { stroke: #b71c1c; stroke-width: 1.5 }
.expected { fill: none; stroke: #666; stroke-width: 1.2; stroke-dasharray: 4 3 }
@media (prefers-color-scheme: dark) {
text { fill: #e6e6e6 }
.ground { fill: #16181c }
.number, .note, .again { fill: #b4b8be }
.text, .again { stroke: #16181c }
.grid { stroke: #26292f }
.lane { stroke: #4a4e57 }
.word { fill: #1d3a28; stroke: #70757d }
.unreached { fill: #24272d; stroke: #70757d }
.bar { stroke: #8a8f98 }
.shorter { fill: #1f4d30 }
.smaller { fill: #54420f }
.kept { fill: #3a3d44 }
.read { fill: #1f3d5f }
.dot { fill: #f2f2f2 }
.cross, .beaten { stroke: #ff8a80 }
.dash, .expected { stroke: #aab0b8 }
.ring { stroke: #f2f2f2 }
.stores { stroke: #5fd39b }
}
</style>
<rect class='ground' width='100%' height='100%'/>
";

/// The legend, which explains the marks and lines.
pub(crate) const LEGEND: &str = "\
<circle class='dot' cx='8' cy='0' r='4'/>
<text class='note' x='34' y='4'>a load</text>
<circle class='dot' cx='8' cy='22' r='7'/>
<text class='note' x='34' y='26'>an exchange that was won</text>
<path class='cross' d='M2 38 l12 12 m0 -12 l-12 12'/>
<text class='note' x='34' y='48'>an exchange that was lost</text>
<circle class='ring' cx='8' cy='66' r='10'/>
<text class='note' x='34' y='70'>at this step the call acts, and ends</text>
<line class='stores' x1='300' y1='0' x2='324' y2='0'/>
<text class='note' x='334' y='4'>the exchange stores to the word</text>
<line class='beaten' x1='300' y1='22' x2='324' y2='22'/>
<text class='note' x='334' y='26'>it was lost by this store</text>
<line class='expected' x1='300' y1='44' x2='324' y2='44'/>
<text class='note' x='334' y='48'>it expected the word of this load</text>
<line class='dash' x1='304' y1='66' x2='320' y2='66'/>
<text class='note' x='334' y='70'>the actor has no call left</text>
<text class='note' x='0' y='100'>5 by 3: distance 5, predecessor 3</text>
<text class='note' x='230' y='100'>o ACTOR WORD DISTANCE PREDECESSOR REPLY: an offer; r: a read</text>
";
