//! Scripts and their pictures: those of docs/pictures, byte for byte.

pub static BARGING: (&str, &str) = (
    "open 3 1 0\ntake 0 0\ntake 1 0\nmark 1 0\npark 1 0\npass 0 0 0 0\ntake 2 0\ntake 1 0\nmark 1 0\npark 1 0\npass 2 0 0 0\ntake 1 0\nfree 1 0\n",
    "<svg xmlns='http://www.w3.org/2000/svg' viewBox='0 0 824 282' width='824' height='282' role='img' font-family='monospace' font-size='11' fill='#222'>
<title>A run (threads: 3, events: 12)</title>
<defs>
<pattern id='line' width='6' height='6' patternUnits='userSpaceOnUse' patternTransform='rotate(45)'><path d='M1.5 0V6' stroke='#fff' stroke-width='3'/></pattern>
<marker id='head' viewBox='0 0 8 8' refX='8' refY='4' markerWidth='8' markerHeight='8' markerUnits='userSpaceOnUse' orient='auto'><path d='M0 0L8 4L0 8z'/></marker>
</defs>
<rect width='824' height='282' fill='#fff'/>
<g font-weight='bold'>
<rect y='56' width='824' height='54' fill='#f3f4f6'/><text x='10' y='85'>T0</text>
<rect y='110' width='824' height='54' fill='#fff'/><text x='10' y='139'>T1</text>
<rect y='164' width='824' height='54' fill='#f3f4f6'/><text x='10' y='193'>T2</text>
</g>
<g text-anchor='middle'>
<path d='M72 52V218' stroke='#d5d8dc'/><text x='72' y='14' font-size='9' fill='#888'>1</text><text x='72' y='31' font-weight='bold'>take</text><text x='72' y='45' font-size='10'>0 0</text>
<path d='M136 52V218' stroke='#d5d8dc'/><text x='136' y='14' font-size='9' fill='#888'>2</text><text x='136' y='31' font-weight='bold'>take</text><text x='136' y='45' font-size='10'>1 0</text>
<path d='M200 52V218' stroke='#d5d8dc'/><text x='200' y='14' font-size='9' fill='#888'>3</text><text x='200' y='31' font-weight='bold'>mark</text><text x='200' y='45' font-size='10'>1 0</text>
<path d='M264 52V218' stroke='#d5d8dc'/><text x='264' y='14' font-size='9' fill='#888'>4</text><text x='264' y='31' font-weight='bold'>park</text><text x='264' y='45' font-size='10'>1 0</text>
<path d='M328 52V218' stroke='#d5d8dc'/><text x='328' y='14' font-size='9' fill='#888'>5</text><text x='328' y='31' font-weight='bold'>pass</text><text x='328' y='45' font-size='10'>0 0 0 0</text>
<path d='M392 52V218' stroke='#d5d8dc'/><text x='392' y='14' font-size='9' fill='#888'>6</text><text x='392' y='31' font-weight='bold'>take</text><text x='392' y='45' font-size='10'>2 0</text>
<path d='M456 52V218' stroke='#d5d8dc'/><text x='456' y='14' font-size='9' fill='#888'>7</text><text x='456' y='31' font-weight='bold'>take</text><text x='456' y='45' font-size='10'>1 0</text>
<path d='M520 52V218' stroke='#d5d8dc'/><text x='520' y='14' font-size='9' fill='#888'>8</text><text x='520' y='31' font-weight='bold'>mark</text><text x='520' y='45' font-size='10'>1 0</text>
<path d='M584 52V218' stroke='#d5d8dc'/><text x='584' y='14' font-size='9' fill='#888'>9</text><text x='584' y='31' font-weight='bold'>park</text><text x='584' y='45' font-size='10'>1 0</text>
<path d='M648 52V218' stroke='#d5d8dc'/><text x='648' y='14' font-size='9' fill='#888'>10</text><text x='648' y='31' font-weight='bold'>pass</text><text x='648' y='45' font-size='10'>2 0 0 0</text>
<path d='M712 52V218' stroke='#d5d8dc'/><text x='712' y='14' font-size='9' fill='#888'>11</text><text x='712' y='31' font-weight='bold'>take</text><text x='712' y='45' font-size='10'>1 0</text>
<path d='M776 52V218' stroke='#d5d8dc'/><text x='776' y='14' font-size='9' fill='#888'>12</text><text x='776' y='31' font-weight='bold'>free</text><text x='776' y='45' font-size='10'>1 0</text>
</g>
<g font-size='10'>
<rect x='136' y='117' width='128' height='16' rx='3' fill='#7fb2e5' fill-opacity='0.4'/><text x='144' y='129'>tries 0</text>
<rect x='72' y='83' width='256' height='16' rx='3' fill='#7fb2e5' fill-opacity='1'/><text x='80' y='95'>lock 0</text>
<rect x='264' y='117' width='64' height='16' rx='3' fill='#7fb2e5' fill-opacity='0.7'/><rect x='264' y='117' width='64' height='16' rx='3' fill='url(#line)' fill-opacity='0.7'/><text x='272' y='129'>line 0</text>
<rect x='328' y='117' width='256' height='16' rx='3' fill='#7fb2e5' fill-opacity='0.4'/><text x='336' y='129'>tries 0</text>
<rect x='392' y='191' width='256' height='16' rx='3' fill='#7fb2e5' fill-opacity='1'/><text x='400' y='203'>lock 0</text>
<rect x='584' y='117' width='64' height='16' rx='3' fill='#7fb2e5' fill-opacity='0.7'/><rect x='584' y='117' width='64' height='16' rx='3' fill='url(#line)' fill-opacity='0.7'/><text x='592' y='129'>line 0</text>
<rect x='648' y='117' width='64' height='16' rx='3' fill='#7fb2e5' fill-opacity='0.4'/><text x='656' y='129'>tries 0</text>
<rect x='712' y='137' width='64' height='16' rx='3' fill='#7fb2e5' fill-opacity='1'/><text x='720' y='149'>lock 0</text>
</g>
<g stroke='#222' stroke-width='1.5' marker-end='url(#head)'>
<path d='M328 81V135'/>
<path d='M648 189V135'/>
</g>
<circle cx='72' cy='81' r='4' fill='#222' stroke='#222' stroke-width='1.5'/>
<circle cx='136' cy='135' r='4' fill='#fff' stroke='#222' stroke-width='1.5'/>
<circle cx='200' cy='135' r='4' fill='#222' stroke='#222' stroke-width='1.5'/>
<circle cx='264' cy='135' r='4' fill='#222' stroke='#222' stroke-width='1.5'/>
<circle cx='328' cy='81' r='4' fill='#222' stroke='#222' stroke-width='1.5'/>
<circle cx='392' cy='189' r='4' fill='#222' stroke='#222' stroke-width='1.5'/>
<circle cx='456' cy='135' r='4' fill='#fff' stroke='#222' stroke-width='1.5'/>
<circle cx='520' cy='135' r='4' fill='#222' stroke='#222' stroke-width='1.5'/>
<circle cx='584' cy='135' r='4' fill='#222' stroke='#222' stroke-width='1.5'/>
<circle cx='648' cy='189' r='4' fill='#222' stroke='#222' stroke-width='1.5'/>
<circle cx='712' cy='135' r='4' fill='#222' stroke='#222' stroke-width='1.5'/>
<circle cx='776' cy='135' r='4' fill='#222' stroke='#222' stroke-width='1.5'/>
<rect x='12' y='230' width='24' height='16' rx='3' fill='#7fb2e5' fill-opacity='1'/><rect x='130' y='230' width='24' height='16' rx='3' fill='#7fb2e5' fill-opacity='0.7'/><rect x='130' y='230' width='24' height='16' rx='3' fill='url(#line)' fill-opacity='0.7'/><rect x='332' y='230' width='24' height='16' rx='3' fill='#7fb2e5' fill-opacity='0.4'/><text x='44' y='242'>has it</text><text x='162' y='242'>in its line</text><text x='364' y='242'>in no line</text>
<circle cx='24' cy='262' r='4' fill='#222' stroke='#222' stroke-width='1.5'/>
<circle cx='142' cy='262' r='4' fill='#fff' stroke='#222' stroke-width='1.5'/>
<path d='M332 262H356' stroke='#222' stroke-width='1.5' marker-end='url(#head)'/><text x='44' y='266'>an event</text><text x='162' y='266'>one that saw false</text><text x='364' y='266'>takes a thread from its line</text>
</svg>
",
);

pub static HANDOFF: (&str, &str) = (
    "open 3 1 0\ntake 0 0\ntake 1 0\nmark 1 0\npark 1 0\ntake 2 0\npark 2 0\npass 0 0 1 0\npass 1 0 1 0\npass 2 0 0 0\n",
    "<svg xmlns='http://www.w3.org/2000/svg' viewBox='0 0 632 282' width='632' height='282' role='img' font-family='monospace' font-size='11' fill='#222'>
<title>A run (threads: 3, events: 9)</title>
<defs>
<pattern id='line' width='6' height='6' patternUnits='userSpaceOnUse' patternTransform='rotate(45)'><path d='M1.5 0V6' stroke='#fff' stroke-width='3'/></pattern>
<marker id='head' viewBox='0 0 8 8' refX='8' refY='4' markerWidth='8' markerHeight='8' markerUnits='userSpaceOnUse' orient='auto'><path d='M0 0L8 4L0 8z'/></marker>
</defs>
<rect width='632' height='282' fill='#fff'/>
<g font-weight='bold'>
<rect y='56' width='632' height='54' fill='#f3f4f6'/><text x='10' y='85'>T0</text>
<rect y='110' width='632' height='54' fill='#fff'/><text x='10' y='139'>T1</text>
<rect y='164' width='632' height='54' fill='#f3f4f6'/><text x='10' y='193'>T2</text>
</g>
<g text-anchor='middle'>
<path d='M72 52V218' stroke='#d5d8dc'/><text x='72' y='14' font-size='9' fill='#888'>1</text><text x='72' y='31' font-weight='bold'>take</text><text x='72' y='45' font-size='10'>0 0</text>
<path d='M136 52V218' stroke='#d5d8dc'/><text x='136' y='14' font-size='9' fill='#888'>2</text><text x='136' y='31' font-weight='bold'>take</text><text x='136' y='45' font-size='10'>1 0</text>
<path d='M200 52V218' stroke='#d5d8dc'/><text x='200' y='14' font-size='9' fill='#888'>3</text><text x='200' y='31' font-weight='bold'>mark</text><text x='200' y='45' font-size='10'>1 0</text>
<path d='M264 52V218' stroke='#d5d8dc'/><text x='264' y='14' font-size='9' fill='#888'>4</text><text x='264' y='31' font-weight='bold'>park</text><text x='264' y='45' font-size='10'>1 0</text>
<path d='M328 52V218' stroke='#d5d8dc'/><text x='328' y='14' font-size='9' fill='#888'>5</text><text x='328' y='31' font-weight='bold'>take</text><text x='328' y='45' font-size='10'>2 0</text>
<path d='M392 52V218' stroke='#d5d8dc'/><text x='392' y='14' font-size='9' fill='#888'>6</text><text x='392' y='31' font-weight='bold'>park</text><text x='392' y='45' font-size='10'>2 0</text>
<path d='M456 52V218' stroke='#d5d8dc'/><text x='456' y='14' font-size='9' fill='#888'>7</text><text x='456' y='31' font-weight='bold'>pass</text><text x='456' y='45' font-size='10'>0 0 1 0</text>
<path d='M520 52V218' stroke='#d5d8dc'/><text x='520' y='14' font-size='9' fill='#888'>8</text><text x='520' y='31' font-weight='bold'>pass</text><text x='520' y='45' font-size='10'>1 0 1 0</text>
<path d='M584 52V218' stroke='#d5d8dc'/><text x='584' y='14' font-size='9' fill='#888'>9</text><text x='584' y='31' font-weight='bold'>pass</text><text x='584' y='45' font-size='10'>2 0 0 0</text>
</g>
<g font-size='10'>
<rect x='136' y='117' width='128' height='16' rx='3' fill='#7fb2e5' fill-opacity='0.4'/><text x='144' y='129'>tries 0</text>
<rect x='328' y='171' width='64' height='16' rx='3' fill='#7fb2e5' fill-opacity='0.4'/><text x='336' y='183'>tries 0</text>
<rect x='72' y='83' width='384' height='16' rx='3' fill='#7fb2e5' fill-opacity='1'/><text x='80' y='95'>lock 0</text>
<rect x='264' y='117' width='192' height='16' rx='3' fill='#7fb2e5' fill-opacity='0.7'/><rect x='264' y='117' width='192' height='16' rx='3' fill='url(#line)' fill-opacity='0.7'/><text x='272' y='129'>line 0</text>
<rect x='456' y='137' width='64' height='16' rx='3' fill='#7fb2e5' fill-opacity='1'/><text x='464' y='149'>lock 0</text>
<rect x='392' y='171' width='128' height='16' rx='3' fill='#7fb2e5' fill-opacity='0.7'/><rect x='392' y='171' width='128' height='16' rx='3' fill='url(#line)' fill-opacity='0.7'/><text x='400' y='183'>line 0</text>
<rect x='520' y='191' width='64' height='16' rx='3' fill='#7fb2e5' fill-opacity='1'/><text x='528' y='203'>lock 0</text>
</g>
<g stroke='#222' stroke-width='1.5' marker-end='url(#head)'>
<path d='M456 81V135'/>
<path d='M520 135V189'/>
</g>
<circle cx='72' cy='81' r='4' fill='#222' stroke='#222' stroke-width='1.5'/>
<circle cx='136' cy='135' r='4' fill='#fff' stroke='#222' stroke-width='1.5'/>
<circle cx='200' cy='135' r='4' fill='#222' stroke='#222' stroke-width='1.5'/>
<circle cx='264' cy='135' r='4' fill='#222' stroke='#222' stroke-width='1.5'/>
<circle cx='328' cy='189' r='4' fill='#fff' stroke='#222' stroke-width='1.5'/>
<circle cx='392' cy='189' r='4' fill='#222' stroke='#222' stroke-width='1.5'/>
<circle cx='456' cy='81' r='4' fill='#222' stroke='#222' stroke-width='1.5'/>
<circle cx='520' cy='135' r='4' fill='#222' stroke='#222' stroke-width='1.5'/>
<circle cx='584' cy='189' r='4' fill='#222' stroke='#222' stroke-width='1.5'/>
<rect x='12' y='230' width='24' height='16' rx='3' fill='#7fb2e5' fill-opacity='1'/><rect x='130' y='230' width='24' height='16' rx='3' fill='#7fb2e5' fill-opacity='0.7'/><rect x='130' y='230' width='24' height='16' rx='3' fill='url(#line)' fill-opacity='0.7'/><rect x='332' y='230' width='24' height='16' rx='3' fill='#7fb2e5' fill-opacity='0.4'/><text x='44' y='242'>has it</text><text x='162' y='242'>in its line</text><text x='364' y='242'>in no line</text>
<circle cx='24' cy='262' r='4' fill='#222' stroke='#222' stroke-width='1.5'/>
<circle cx='142' cy='262' r='4' fill='#fff' stroke='#222' stroke-width='1.5'/>
<path d='M332 262H356' stroke='#222' stroke-width='1.5' marker-end='url(#head)'/><text x='44' y='266'>an event</text><text x='162' y='266'>one that saw false</text><text x='364' y='266'>takes a thread from its line</text>
</svg>
",
);

pub static WAIT: (&str, &str) = (
    "open 2 1 1\ntake 0 0\nenlist 0 1 0\nfree 0 0\ntake 1 0\nlook 1 1\ncall 1 1 0\ntake 0 0\nmark 0 0\npark 0 0\npass 1 0 1 0\npass 0 0 0 0\n",
    "<svg xmlns='http://www.w3.org/2000/svg' viewBox='0 0 760 228' width='760' height='228' role='img' font-family='monospace' font-size='11' fill='#222'>
<title>A run (threads: 2, events: 11)</title>
<defs>
<pattern id='line' width='6' height='6' patternUnits='userSpaceOnUse' patternTransform='rotate(45)'><path d='M1.5 0V6' stroke='#fff' stroke-width='3'/></pattern>
<marker id='head' viewBox='0 0 8 8' refX='8' refY='4' markerWidth='8' markerHeight='8' markerUnits='userSpaceOnUse' orient='auto'><path d='M0 0L8 4L0 8z'/></marker>
</defs>
<rect width='760' height='228' fill='#fff'/>
<g font-weight='bold'>
<rect y='56' width='760' height='54' fill='#f3f4f6'/><text x='10' y='85'>T0</text>
<rect y='110' width='760' height='54' fill='#fff'/><text x='10' y='139'>T1</text>
</g>
<g text-anchor='middle'>
<path d='M72 52V164' stroke='#d5d8dc'/><text x='72' y='14' font-size='9' fill='#888'>1</text><text x='72' y='31' font-weight='bold'>take</text><text x='72' y='45' font-size='10'>0 0</text>
<path d='M136 52V164' stroke='#d5d8dc'/><text x='136' y='14' font-size='9' fill='#888'>2</text><text x='136' y='31' font-weight='bold'>enlist</text><text x='136' y='45' font-size='10'>0 1 0</text>
<path d='M200 52V164' stroke='#d5d8dc'/><text x='200' y='14' font-size='9' fill='#888'>3</text><text x='200' y='31' font-weight='bold'>free</text><text x='200' y='45' font-size='10'>0 0</text>
<path d='M264 52V164' stroke='#d5d8dc'/><text x='264' y='14' font-size='9' fill='#888'>4</text><text x='264' y='31' font-weight='bold'>take</text><text x='264' y='45' font-size='10'>1 0</text>
<path d='M328 52V164' stroke='#d5d8dc'/><text x='328' y='14' font-size='9' fill='#888'>5</text><text x='328' y='31' font-weight='bold'>look</text><text x='328' y='45' font-size='10'>1 1</text>
<path d='M392 52V164' stroke='#d5d8dc'/><text x='392' y='14' font-size='9' fill='#888'>6</text><text x='392' y='31' font-weight='bold'>call</text><text x='392' y='45' font-size='10'>1 1 0</text>
<path d='M456 52V164' stroke='#d5d8dc'/><text x='456' y='14' font-size='9' fill='#888'>7</text><text x='456' y='31' font-weight='bold'>take</text><text x='456' y='45' font-size='10'>0 0</text>
<path d='M520 52V164' stroke='#d5d8dc'/><text x='520' y='14' font-size='9' fill='#888'>8</text><text x='520' y='31' font-weight='bold'>mark</text><text x='520' y='45' font-size='10'>0 0</text>
<path d='M584 52V164' stroke='#d5d8dc'/><text x='584' y='14' font-size='9' fill='#888'>9</text><text x='584' y='31' font-weight='bold'>park</text><text x='584' y='45' font-size='10'>0 0</text>
<path d='M648 52V164' stroke='#d5d8dc'/><text x='648' y='14' font-size='9' fill='#888'>10</text><text x='648' y='31' font-weight='bold'>pass</text><text x='648' y='45' font-size='10'>1 0 1 0</text>
<path d='M712 52V164' stroke='#d5d8dc'/><text x='712' y='14' font-size='9' fill='#888'>11</text><text x='712' y='31' font-weight='bold'>pass</text><text x='712' y='45' font-size='10'>0 0 0 0</text>
</g>
<g font-size='10'>
<rect x='72' y='83' width='128' height='16' rx='3' fill='#7fb2e5' fill-opacity='1'/><text x='80' y='95'>lock 0</text>
<rect x='136' y='63' width='64' height='16' rx='3' fill='#f2b872' fill-opacity='0.7'/><rect x='136' y='63' width='64' height='16' rx='3' fill='url(#line)' fill-opacity='0.7'/><text x='144' y='75'>bed 1</text>
<rect x='200' y='63' width='192' height='16' rx='3' fill='#f2b872' fill-opacity='0.7'/><rect x='200' y='63' width='192' height='16' rx='3' fill='url(#line)' fill-opacity='0.7'/><text x='208' y='75'>rest 1</text>
<rect x='392' y='63' width='64' height='16' rx='3' fill='#7fb2e5' fill-opacity='0.4'/><text x='400' y='75'>tries 0</text>
<rect x='456' y='63' width='128' height='16' rx='3' fill='#7fb2e5' fill-opacity='0.4'/><text x='464' y='75'>tries 0</text>
<rect x='264' y='137' width='384' height='16' rx='3' fill='#7fb2e5' fill-opacity='1'/><text x='272' y='149'>lock 0</text>
<rect x='584' y='63' width='64' height='16' rx='3' fill='#7fb2e5' fill-opacity='0.7'/><rect x='584' y='63' width='64' height='16' rx='3' fill='url(#line)' fill-opacity='0.7'/><text x='592' y='75'>line 0</text>
<rect x='648' y='83' width='64' height='16' rx='3' fill='#7fb2e5' fill-opacity='1'/><text x='656' y='95'>lock 0</text>
</g>
<g stroke='#222' stroke-width='1.5' marker-end='url(#head)'>
<path d='M392 135V81'/>
<path d='M648 135V81'/>
</g>
<circle cx='72' cy='81' r='4' fill='#222' stroke='#222' stroke-width='1.5'/>
<circle cx='136' cy='81' r='4' fill='#222' stroke='#222' stroke-width='1.5'/>
<circle cx='200' cy='81' r='4' fill='#222' stroke='#222' stroke-width='1.5'/>
<circle cx='264' cy='135' r='4' fill='#222' stroke='#222' stroke-width='1.5'/>
<circle cx='328' cy='135' r='4' fill='#222' stroke='#222' stroke-width='1.5'/>
<circle cx='392' cy='135' r='4' fill='#222' stroke='#222' stroke-width='1.5'/>
<circle cx='456' cy='81' r='4' fill='#fff' stroke='#222' stroke-width='1.5'/>
<circle cx='520' cy='81' r='4' fill='#222' stroke='#222' stroke-width='1.5'/>
<circle cx='584' cy='81' r='4' fill='#222' stroke='#222' stroke-width='1.5'/>
<circle cx='648' cy='135' r='4' fill='#222' stroke='#222' stroke-width='1.5'/>
<circle cx='712' cy='81' r='4' fill='#222' stroke='#222' stroke-width='1.5'/>
<rect x='12' y='176' width='24' height='16' rx='3' fill='#7fb2e5' fill-opacity='1'/><rect x='130' y='176' width='24' height='16' rx='3' fill='#7fb2e5' fill-opacity='0.7'/><rect x='130' y='176' width='24' height='16' rx='3' fill='url(#line)' fill-opacity='0.7'/><rect x='332' y='176' width='24' height='16' rx='3' fill='#7fb2e5' fill-opacity='0.4'/><text x='44' y='188'>has it</text><text x='162' y='188'>in its line</text><text x='364' y='188'>in no line</text>
<circle cx='24' cy='208' r='4' fill='#222' stroke='#222' stroke-width='1.5'/>
<circle cx='142' cy='208' r='4' fill='#fff' stroke='#222' stroke-width='1.5'/>
<path d='M332 208H356' stroke='#222' stroke-width='1.5' marker-end='url(#head)'/><text x='44' y='212'>an event</text><text x='162' y='212'>one that saw false</text><text x='364' y='212'>takes a thread from its line</text>
</svg>
",
);

pub static SEMAPHORE: (&str, &str) = (
    "open 3 1 0 1\nstake 0 1\nstake 1 1\nsmark 1 1\nspark 1 1\nstake 2 1\nspark 2 1\nspass 0 1 1\nstake 1 1\nspass 1 1 0\nstake 2 1\nsfree 2 1\n",
    "<svg xmlns='http://www.w3.org/2000/svg' viewBox='0 0 760 282' width='760' height='282' role='img' font-family='monospace' font-size='11' fill='#222'>
<title>A run (threads: 3, events: 11)</title>
<defs>
<pattern id='line' width='6' height='6' patternUnits='userSpaceOnUse' patternTransform='rotate(45)'><path d='M1.5 0V6' stroke='#fff' stroke-width='3'/></pattern>
<marker id='head' viewBox='0 0 8 8' refX='8' refY='4' markerWidth='8' markerHeight='8' markerUnits='userSpaceOnUse' orient='auto'><path d='M0 0L8 4L0 8z'/></marker>
</defs>
<rect width='760' height='282' fill='#fff'/>
<g font-weight='bold'>
<rect y='56' width='760' height='54' fill='#f3f4f6'/><text x='10' y='85'>T0</text>
<rect y='110' width='760' height='54' fill='#fff'/><text x='10' y='139'>T1</text>
<rect y='164' width='760' height='54' fill='#f3f4f6'/><text x='10' y='193'>T2</text>
</g>
<g text-anchor='middle'>
<path d='M72 52V218' stroke='#d5d8dc'/><text x='72' y='14' font-size='9' fill='#888'>1</text><text x='72' y='31' font-weight='bold'>stake</text><text x='72' y='45' font-size='10'>0 1</text>
<path d='M136 52V218' stroke='#d5d8dc'/><text x='136' y='14' font-size='9' fill='#888'>2</text><text x='136' y='31' font-weight='bold'>stake</text><text x='136' y='45' font-size='10'>1 1</text>
<path d='M200 52V218' stroke='#d5d8dc'/><text x='200' y='14' font-size='9' fill='#888'>3</text><text x='200' y='31' font-weight='bold'>smark</text><text x='200' y='45' font-size='10'>1 1</text>
<path d='M264 52V218' stroke='#d5d8dc'/><text x='264' y='14' font-size='9' fill='#888'>4</text><text x='264' y='31' font-weight='bold'>spark</text><text x='264' y='45' font-size='10'>1 1</text>
<path d='M328 52V218' stroke='#d5d8dc'/><text x='328' y='14' font-size='9' fill='#888'>5</text><text x='328' y='31' font-weight='bold'>stake</text><text x='328' y='45' font-size='10'>2 1</text>
<path d='M392 52V218' stroke='#d5d8dc'/><text x='392' y='14' font-size='9' fill='#888'>6</text><text x='392' y='31' font-weight='bold'>spark</text><text x='392' y='45' font-size='10'>2 1</text>
<path d='M456 52V218' stroke='#d5d8dc'/><text x='456' y='14' font-size='9' fill='#888'>7</text><text x='456' y='31' font-weight='bold'>spass</text><text x='456' y='45' font-size='10'>0 1 1</text>
<path d='M520 52V218' stroke='#d5d8dc'/><text x='520' y='14' font-size='9' fill='#888'>8</text><text x='520' y='31' font-weight='bold'>stake</text><text x='520' y='45' font-size='10'>1 1</text>
<path d='M584 52V218' stroke='#d5d8dc'/><text x='584' y='14' font-size='9' fill='#888'>9</text><text x='584' y='31' font-weight='bold'>spass</text><text x='584' y='45' font-size='10'>1 1 0</text>
<path d='M648 52V218' stroke='#d5d8dc'/><text x='648' y='14' font-size='9' fill='#888'>10</text><text x='648' y='31' font-weight='bold'>stake</text><text x='648' y='45' font-size='10'>2 1</text>
<path d='M712 52V218' stroke='#d5d8dc'/><text x='712' y='14' font-size='9' fill='#888'>11</text><text x='712' y='31' font-weight='bold'>sfree</text><text x='712' y='45' font-size='10'>2 1</text>
</g>
<g font-size='10'>
<rect x='136' y='117' width='128' height='16' rx='3' fill='#f2b872' fill-opacity='0.4'/><text x='144' y='129'>seeks 1</text>
<rect x='328' y='171' width='64' height='16' rx='3' fill='#f2b872' fill-opacity='0.4'/><text x='336' y='183'>seeks 1</text>
<rect x='72' y='83' width='384' height='16' rx='3' fill='#f2b872' fill-opacity='1'/><text x='80' y='95'>sem 1</text>
<rect x='264' y='117' width='192' height='16' rx='3' fill='#f2b872' fill-opacity='0.7'/><rect x='264' y='117' width='192' height='16' rx='3' fill='url(#line)' fill-opacity='0.7'/><text x='272' y='129'>line 1</text>
<rect x='456' y='117' width='64' height='16' rx='3' fill='#f2b872' fill-opacity='0.4'/><text x='464' y='129'>seeks 1</text>
<rect x='520' y='137' width='64' height='16' rx='3' fill='#f2b872' fill-opacity='1'/><text x='528' y='149'>sem 1</text>
<rect x='392' y='171' width='192' height='16' rx='3' fill='#f2b872' fill-opacity='0.7'/><rect x='392' y='171' width='192' height='16' rx='3' fill='url(#line)' fill-opacity='0.7'/><text x='400' y='183'>line 1</text>
<rect x='584' y='171' width='64' height='16' rx='3' fill='#f2b872' fill-opacity='0.4'/><text x='592' y='183'>seeks 1</text>
<rect x='648' y='191' width='64' height='16' rx='3' fill='#f2b872' fill-opacity='1'/><text x='656' y='203'>sem 1</text>
</g>
<g stroke='#222' stroke-width='1.5' marker-end='url(#head)'>
<path d='M456 81V135'/>
<path d='M584 135V189'/>
</g>
<circle cx='72' cy='81' r='4' fill='#222' stroke='#222' stroke-width='1.5'/>
<circle cx='136' cy='135' r='4' fill='#fff' stroke='#222' stroke-width='1.5'/>
<circle cx='200' cy='135' r='4' fill='#222' stroke='#222' stroke-width='1.5'/>
<circle cx='264' cy='135' r='4' fill='#222' stroke='#222' stroke-width='1.5'/>
<circle cx='328' cy='189' r='4' fill='#fff' stroke='#222' stroke-width='1.5'/>
<circle cx='392' cy='189' r='4' fill='#222' stroke='#222' stroke-width='1.5'/>
<circle cx='456' cy='81' r='4' fill='#222' stroke='#222' stroke-width='1.5'/>
<circle cx='520' cy='135' r='4' fill='#222' stroke='#222' stroke-width='1.5'/>
<circle cx='584' cy='135' r='4' fill='#222' stroke='#222' stroke-width='1.5'/>
<circle cx='648' cy='189' r='4' fill='#222' stroke='#222' stroke-width='1.5'/>
<circle cx='712' cy='189' r='4' fill='#222' stroke='#222' stroke-width='1.5'/>
<rect x='12' y='230' width='24' height='16' rx='3' fill='#7fb2e5' fill-opacity='1'/><rect x='130' y='230' width='24' height='16' rx='3' fill='#7fb2e5' fill-opacity='0.7'/><rect x='130' y='230' width='24' height='16' rx='3' fill='url(#line)' fill-opacity='0.7'/><rect x='332' y='230' width='24' height='16' rx='3' fill='#7fb2e5' fill-opacity='0.4'/><text x='44' y='242'>has it</text><text x='162' y='242'>in its line</text><text x='364' y='242'>in no line</text>
<circle cx='24' cy='262' r='4' fill='#222' stroke='#222' stroke-width='1.5'/>
<circle cx='142' cy='262' r='4' fill='#fff' stroke='#222' stroke-width='1.5'/>
<path d='M332 262H356' stroke='#222' stroke-width='1.5' marker-end='url(#head)'/><text x='44' y='266'>an event</text><text x='162' y='266'>one that saw false</text><text x='364' y='266'>takes a thread from its line</text>
</svg>
",
);
