/// The page, in HTML.
pub const PAGE: &str = "<!doctype html>
<html lang='en'>
<head>
<meta charset='utf-8'>
<meta name='viewport' content='width=device-width, initial-scale=1'>
<meta name='color-scheme' content='light dark'>
<title>als</title>
<link rel='stylesheet' href='/page.css'>
<script src='/page.js' defer></script>
</head>
<body data-health='unknown'>
<a class='skip' href='#numbers'>To the numbers</a>
<header>
<div class='who'>
<h1 id='role'>node</h1>
<p id='state' role='status' aria-live='polite'>asking the node</p>
</div>
<dl class='row'>
<div><dt>epoch</dt><dd id='epoch'>-</dd></div>
<div><dt>host</dt><dd id='host'>-</dd></div>
<div><dt>version</dt><dd id='version'>-</dd></div>
</dl>
</header>
<noscript><p class='note'>Without its script: <a href='/status'>/status</a>.</p></noscript>
<main id='numbers' tabindex='-1'>
<section aria-labelledby='log-head'>
<h2 id='log-head'>Log</h2>
<dl class='figures'>
<div><dt>acknowledged LSN</dt><dd id='acknowledged'>-</dd></div>
<div><dt>end</dt><dd id='end'>-</dd></div>
<div><dt>commits</dt><dd id='commits'>-</dd></div>
<div><dt>pending redo</dt><dd id='pending'>-</dd></div>
<div><dt>leases</dt><dd id='leases'>-</dd></div>
<div class='standby'><dt>last frame</dt><dd id='frame'>-</dd></div>
<div class='primary'><dt>transactions</dt><dd id='transactions'>-</dd></div>
<div class='primary'><dt>group size</dt><dd id='group'>-</dd></div>
<div class='primary'><dt>force time</dt><dd id='force'>-</dd></div>
<div class='wide'><dt>room left</dt><dd><span id='left'>-</span> <meter id='room' low='.1' optimum='1' aria-label='room left'></meter></dd></div>
</dl>
</section>
<section aria-labelledby='plot-head'>
<h2 id='plot-head'>The last five minutes</h2>
<div class='plots'>
<figure><figcaption><span id='lag-name'>lag</span> <b id='lag-now'>-</b></figcaption><svg id='lag' role='img' aria-label='lag'></svg></figure>
<figure><figcaption>commits a second <b id='rate-now'>-</b></figcaption><svg id='rate' role='img' aria-label='commits a second'></svg></figure>
<figure><figcaption>pending redo <b id='redo-now'>-</b></figcaption><svg id='redo' role='img' aria-label='pending redo'></svg></figure>
</div>
</section>
<section id='following' aria-labelledby='followers-head'>
<h2 id='followers-head'>Followers</h2>
<p id='sync' class='note'></p>
<div class='scroll' role='region' aria-labelledby='followers-head' tabindex='0'>
<table role='table'>
<thead><tr role='row'><th scope='col'>address</th><th scope='col'>acknowledged</th><th scope='col'>behind</th>
<th scope='col'>seconds behind</th><th scope='col'>connected</th></tr></thead>
<tbody id='followers'></tbody>
</table>
</div>
</section>
<section aria-labelledby='fault-head'>
<h2 id='fault-head'>Last refusal</h2>
<p id='fault'>-</p>
<p id='advice' class='note'></p>
</section>
</main>
<footer><a href='/status'>/status</a> <a href='/metrics'>/metrics</a> <a href='/health'>/health</a> <span id='asked'></span></footer>
</body>
</html>
";
